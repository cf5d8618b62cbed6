// The word of V = ± odd × 2^power under a code, where there is one.

ghost use Rattle.std.specs.Prelude.{◌≡◌, ◌+◌, ◌-◌, ◌*◌, ◌/◌, ◌^◌, ◌<◌, ◌≤◌, ◌&&◌};
ghost use Rattle.numbers.specs.Walk.{pick};
ghost use Rattle.numbers.specs.TwosComplement.{bits_of};
ghost use Rattle.numbers.specs.SignMagnitude.{sign_magnitude};
ghost use Rattle.formats.specs.Format.{placed};
ghost use Rattle.formats.specs.Codes.{code_no, whole_format};
ghost use Rattle.formats.specs.Steps.{Float, Length, Lowest};
ghost use Rattle.formats.specs.Words.{float_bits, float_word, whole_word, gain_word, word_of};
ghost use Rattle.formats.specs.Written.{written};
ghost use Rattle.value.specs.Parts.{format, sample_bits, worth};

use crate::parts::Odd;
use formats::{Code, DENOMINATOR_POWER, Placed};
use numbers::Cause;

// A shift up that loses nothing.
pub(crate) fn shifted_up(a: u32, s: u32) -> u32
    requires { (s < 32) × (a * 2 ^ s < 2 ^ 32) }
    ensures { result ≡ a * 2 ^ s }
{
    a << s
}

// ## Places

// The format of a code has one more number of that sign.
pub(crate) fn one_more(code: Code, negative: bool) -> bool
    ensures { result ≡ ((format code).more && negative) }
{
    code.format().more && negative
}

// The least characteristic whose fraction reaches the bit `first`, counted from 1.
pub(crate) fn lowest(code: Code, first: u32) -> u32
    requires { first < 2 ^ 16 }
    ensures { Lowest first ((format code).fraction + (format code).base) (format code).digit result }
{
    let x = code.format();
    let room = x.fraction + x.base;
    (first - first.min(room) + (x.digit - 1)) / x.digit
}

// The power of two that the last place of a fraction is worth beside a characteristic.
pub(crate) fn last_place(code: Code, c: u32) -> u32
    requires { c < (format code).characteristics }
    ensures { result ≡ (format code).base + (format code).digit * c }
{
    let x = code.format();
    x.base + x.digit * c
}

// ## Words

// The bits of a sample of a code.
pub(crate) fn sample_bits(code: Code) -> u32
    ensures { (result ≡ sample_bits code) × (0 < result) × (result ≤ 32) }
{
    8 * code.width() as u32
}

// The sign bit of a word, in its place.
fn sign_bit(negative: bool) -> u32
    ensures { (result ≡ pick negative (2 ^ 31) 0) × (result ≤ 2 ^ 31) }
{
    if negative { 0x8000_0000 } else { 0 }
}

// A word by its sign, characteristic and fraction.
pub(crate) fn packed(y: u32, negative: bool, c: u32, f: u32) -> u32
    requires { (y < 32) × (c * 2 ^ y + f < 2 ^ 31) }
    ensures { result ≡ float_bits 32 y negative c f }
{
    let low = shifted_up(c, y) + f;
    sign_bit(negative) + low
}

// The bits of a number of w bits, given by sign and magnitude: a magnitude of 0 has no sign.
pub(crate) fn complement(w: u32, negative: bool, q: u32) -> u32
    requires { (0 < w) × (w ≤ 32) × (pick negative 1 0 ≤ q) × (q < 2 ^ (w - 1) + pick negative 1 0) }
    ensures { (result ≡ bits_of w (sign_magnitude negative q)) × (result < 2 ^ w) }
{
    if negative {
        ((1u64 << w) - q as u64) as u32
    } else {
        q
    }
}

// The power of two that the last bit is worth at gain 255.
const GAIN_BASE: u32 = DENOMINATOR_POWER - 255;

impl Odd {
    // The bits of the magnitude; where `less` is set, as for a format with one more number below zero, a power of two counts as one bit
    // shorter. They are one fewer than those of 2 × odd + 1, and of 2 × odd - 1, which is never 0: the compiler then makes one instruction of
    // the count.
    #[tactic(auto, using(crate::proofs::PlaceLaws::length_by))]
    pub(crate) fn length(self, less: bool) -> u32
        ensures { Length (pick less 1 0) self.odd result × (result < 32) }
    {
        31 - u32::leading_zeros(2 * self.odd + 1 - 2 * less as u32)
    }

    // The value's place in the format of a code: of the characteristics that serve, the least. It is told by bit lengths alone, and the
    // fraction is shifted once it is known to fit.
    #[tactic(auto, using(formats::proofs::FitLaws::placed_high, formats::proofs::FitLaws::placed_odd, formats::proofs::FitLaws::placed_at_lem, crate::proofs::PlaceLaws::shift_placed))]
    fn place(self, code: Code) -> Option<Placed>
        ensures { result ≡ placed (format code) (worth self) }
    {
        let c = lowest(
            code,
            self.length(one_more(code, self.negative)) + self.power,
        );
        if code.format().characteristics <= c {
            return None;
        }
        let last = last_place(code, c);
        if self.power < last {
            return None;
        }
        Some(Placed {
            characteristic: c,
            fraction: shifted_up(self.odd, self.power - last),
        })
    }

    // The word in a format of sign and magnitude, with the characteristic above the y lowest bits.
    fn float_word(self, code: Code, y: u32) -> Result<u32, Cause>
        requires { Float (format code) 32 y }
        ensures { written result ≡ float_word (format code) 32 y (worth self) }
    {
        let p = self.place(code).ok_or(Cause::Unfit)?;
        Ok(packed(y, self.negative, p.characteristic, p.fraction))
    }

    // The word as a whole number of a sample's bits. With a power below 280 it is none: that test stands before the place, where it costs less than in it.
    fn whole_word(self, code: Code) -> Result<u32, Cause>
        requires { format code ≡ whole_format (sample_bits code) }
        ensures { written result ≡ whole_word (sample_bits code) (worth self) }
    {
        if self.power < DENOMINATOR_POWER {
            return Err(Cause::Unfit);
        }
        let p = self.place(code).ok_or(Cause::Unfit)?;
        Ok(complement(sample_bits(code), self.negative, p.fraction))
    }

    // The word under code 4 with the smallest gain: the largest characteristic that leaves the number whole.
    #[tactic(auto, using(formats::proofs::GainLaws::gain_low, formats::proofs::GainLaws::gain_high, formats::proofs::GainLaws::gain_few, formats::proofs::GainLaws::gain_at_lem, crate::proofs::PlaceLaws::shift_fits))]
    fn gain_word(self) -> Result<u32, Cause>
        ensures { written result ≡ gain_word (worth self) }
    {
        if self.power < GAIN_BASE {
            return Err(Cause::Unfit);
        }
        let c = (self.power - GAIN_BASE).min(255);
        if 15 + GAIN_BASE + c < self.length(self.negative) + self.power {
            return Err(Cause::Unfit);
        }
        let d = complement(
            16,
            self.negative,
            shifted_up(self.odd, self.power - (GAIN_BASE + c)),
        );
        Ok((255 - c) * 0x1_0000 + d)
    }

    // The word under a code.
    pub(crate) fn word(self, code: Code) -> Result<u32, Cause>
        ensures { written result ≡ word_of (code_no code) (worth self) }
    {
        match code {
            Code::Ibm => self.float_word(code, 24),
            Code::Whole32 => self.whole_word(code),
            Code::Whole16 => self.whole_word(code),
            Code::Gain => self.gain_word(),
            Code::Ieee => self.float_word(code, 23),
            Code::Whole8 => self.whole_word(code),
        }
    }
}
