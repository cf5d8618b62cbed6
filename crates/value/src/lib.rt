// What a sample is worth: the canonical pair, the word of a pair under a code, and the word of the nearest value of a code.
#![tactic(auto)]

ghost use Rattle.std.specs.Prelude.{◌≡◌, ◌+◌, ◌≤◌, true, pos, nat_abs, ◌+ℤ◌};
ghost use Rattle.formats.specs.Codes.{denominator_power, code_no};
ghost use Rattle.formats.specs.Words.{word_bits};
ghost use Rattle.formats.specs.Written.{written};
ghost use Rattle.value.specs.Pair.{highest_exponent, is_exponent, is_canonical, pair_of_bits, pair_in, pair_bytes};
ghost use Rattle.value.specs.Writing.{write_pair, nearest_pair, rounded};
ghost use Rattle.value.specs.Parts.{PartsOf};

mod exact;
mod parts;
mod rounding;

use formats::{Code, DENOMINATOR_POWER};
use numbers::{Cause, Number};
use parts::Odd;

// A sample as exponent and mantissa: the value m × 2^e.
#[derive(Clone, Copy, Debug, PartialEq, Eq)]
pub struct Pair {
    pub e: i16,
    pub m: i32,
}

// What nearest writing makes of a pair: the bits of the word of the nearest value, and whether that is another value than the pair's.
#[derive(Clone, Copy, Debug, PartialEq, Eq)]
pub struct Rounded {
    pub bits: u32,
    pub changed: bool,
}

// The least and the largest e.
const LOWEST_EXPONENT: i16 = -280;

const HIGHEST_EXPONENT: i16 = 251;

// Zero under every code.
const ZERO_WORD: u32 = 0;

// The bits that are given where there is no word.
const NO_WORD: u32 = 0;

// What nearest writing makes of what has no word.
const UNCHANGED: Rounded = Rounded {
    bits: NO_WORD,
    changed: false,
};

// Whether e is within its limits.
fn is_exponent(e: i16) -> bool
    ensures { result ≡ is_exponent e }
{
    LOWEST_EXPONENT <= e && e <= HIGHEST_EXPONENT
}

// e + 280, for an e within its limits.
fn shift(e: i16) -> u32
    requires { is_exponent e ≡ true }
    ensures { (result ≡ nat_abs (e +ℤ pos denominator_power)) × (result ≤ denominator_power + highest_exponent) }
{
    (e + DENOMINATOR_POWER as i16) as u32
}

impl Pair {
    // The pair taken apart: zero, which is none, or V = ± odd × 2^power; or 13, where it isn't canonical.
    fn parts(self) -> Result<Option<Odd>, Cause>
        ensures { PartsOf self result }
    {
        let bits = u32::of_signed(self.m);
        let odd = bits.magnitude();
        if odd % 2 == 0 {
            if odd == 0 && self.e == 0 {
                return Ok(None);
            }
            return Err(Cause::RecordNumber);
        }
        if is_exponent(self.e) {
            return Ok(Some(Odd {
                negative: 0x8000_0000 <= bits,
                odd,
                power: shift(self.e),
            }));
        }
        Err(Cause::RecordNumber)
    }

    // Whether the pair is canonical. Nearly every mantissa is odd, so that is asked first.
    pub fn is_canonical(self) -> bool
        ensures { result ≡ is_canonical self }
    {
        let bits = u32::of_signed(self.m);
        if bits % 2 == 1 {
            return is_exponent(self.e);
        }
        bits == 0 && self.e == 0
    }

    // The word of the pair under a code, or the refusal: 13 or 14.
    pub fn word(self, code: Code) -> Result<u32, Cause>
        ensures { written result ≡ write_pair (code_no code) self }
    {
        match self.parts()? {
            None => Ok(ZERO_WORD),
            Some(v) => v.word(code),
        }
    }

    // To each code's word, a method for each code, as the project's law names them: the normal word, the number itself of 32 and of 16 bits,
    // the word of the smallest gain, the IEEE word, and the number itself of 8 bits.
    pub fn ibm_word(self) -> Result<u32, Cause>
        ensures { written result ≡ write_pair 1 self }
    {
        self.word(Code::Ibm)
    }

    pub fn whole32_word(self) -> Result<u32, Cause>
        ensures { written result ≡ write_pair 2 self }
    {
        self.word(Code::Whole32)
    }

    pub fn whole16_word(self) -> Result<u32, Cause>
        ensures { written result ≡ write_pair 3 self }
    {
        self.word(Code::Whole16)
    }

    pub fn gain_word(self) -> Result<u32, Cause>
        ensures { written result ≡ write_pair 4 self }
    {
        self.word(Code::Gain)
    }

    pub fn ieee_word(self) -> Result<u32, Cause>
        ensures { written result ≡ write_pair 5 self }
    {
        self.word(Code::Ieee)
    }

    pub fn whole8_word(self) -> Result<u32, Cause>
        ensures { written result ≡ write_pair 8 self }
    {
        self.word(Code::Whole8)
    }

    // The bits of the word of the pair under a code, 0 where there is none: for a caller who knows that there is one.
    pub fn bits(self, code: Code) -> u32
        ensures { result ≡ word_bits (write_pair (code_no code) self) }
    {
        self.word(code).unwrap_or(NO_WORD)
    }

    // The word of the nearest value of a code, and whether that is another value. Where the pair isn't canonical, the bits are 0 and nothing is
    // changed.
    pub fn nearest(self, code: Code) -> Rounded
        ensures { rounded result ≡ nearest_pair (code_no code) self }
    {
        match self.parts() {
            Ok(Some(v)) => v.nearest(code),
            Ok(None) => Rounded {
                bits: ZERO_WORD,
                changed: false,
            },
            Err(_) => UNCHANGED,
        }
    }

    // The pair of the 16 bits of e and the 32 of m.
    pub fn of_bits(e: u16, m: u32) -> Pair
        ensures { result ≡ pair_of_bits e m }
    {
        Pair {
            e: e.signed(),
            m: m.signed(),
        }
    }

    // The pair of six bytes, and the six bytes of a pair.
    pub fn of_bytes(b: [u8; 6]) -> Pair
        ensures { result ≡ pair_in b }
    {
        Pair::of_bits(u16::of_bytes(&b[..2]), u32::of_bytes(&b[2..]))
    }

    pub fn to_bytes(self) -> [u8; 6]
        ensures { result ≡ pair_bytes self.e self.m }
    {
        let e = self.e.to_be_bytes();
        let m = self.m.to_be_bytes();
        [e[0], e[1], m[0], m[1], m[2], m[3]]
    }
}

// ## Under a number
//
// These take every number, codes or not, as the C interface is given them: what they promise of the others may not change.

// The word of a pair under a number, or the refusal: 11, where the number is no code, 13 or 14.
pub fn write(code: u32, p: Pair) -> Result<u32, Cause>
    ensures { written result ≡ write_pair code p }
{
    p.word(Code::of(code as usize).ok_or(Cause::TargetCode)?)
}

// The bits of the word of a pair under a number, 0 where there is none: for a caller who knows that there is one.
pub fn bits(code: u32, p: Pair) -> u32
    ensures { result ≡ word_bits (write_pair code p) }
{
    match Code::of(code as usize) {
        Some(code) => p.bits(code),
        None => NO_WORD,
    }
}

// The word of the nearest value of a code to a pair's, by the number of the code, and whether that is another value. Where the number is no
// code or the pair isn't canonical, the bits are 0 and nothing is changed.
pub fn nearest(code: u32, p: Pair) -> Rounded
    ensures { rounded result ≡ nearest_pair code p }
{
    match Code::of(code as usize) {
        Some(code) => p.nearest(code),
        None => UNCHANGED,
    }
}
