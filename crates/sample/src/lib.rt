// Single samples: the canonical pair of a word under a code, and the two calls.
#![tactic(auto)]

ghost use Rattle.std.specs.Prelude.{◌≡◌, ◌+◌, ◌*◌, ◌/◌, ◌%◌, ◌^◌, ◌<◌, ◌≤◌, pos, ◌*ℤ◌, unsigned_abs, ◌==◌};
ghost use Rattle.std.proofs.Math.IntN.{sub_ℕ};
ghost use Rattle.numbers.specs.Walk.{pick};
ghost use Rattle.numbers.specs.Cause.{cause_no};
ghost use Rattle.numbers.specs.Places.{place_no};
ghost use Rattle.numbers.specs.TwosComplement.{signed_of};
ghost use Rattle.numbers.specs.SignMagnitude.{sign_magnitude};
ghost use Rattle.formats.specs.Codes.{denominator_power, code_no};
ghost use Rattle.formats.specs.Value.{fraction, ibm_value, whole_value, gain_value, ieee_exponent, ieee_fraction, ieee_value, is_bad, word_number, exact_value};
ghost use Rattle.formats.specs.Words.{is_normal};
ghost use Rattle.value.specs.Pair.{pair_of};
ghost use Rattle.sample.specs.Reading.{bad_number, not_normal, read_word, sampled};
ghost use Rattle.sample.specs.Calls.{single_word, word_found, word_read, pair_written, word_outcome, pair_outcome};

use formats::{Code, DENOMINATOR_POWER};
use numbers::{Cause, Number, Place, Refusal};
use value::Pair;

// What reading a single word hands out: taken, with whether it is an IBM word other than the normal word of its value, or refused; and the
// bytes of the pair, which beside a refusal are all 00.
#[derive(Clone, Copy, Debug, PartialEq, Eq)]
pub struct WordRead {
    pub answer: Result<bool, Refusal>,
    pub pair: [u8; 6],
}

// What writing a single pair hands out: taken or refused, and the bytes of the word, which beside a refusal are all 00.
#[derive(Clone, Copy, Debug, PartialEq, Eq)]
pub struct PairWritten {
    pub answer: Result<(), Refusal>,
    pub word: [u8; 4],
}

// The power of two that the last place of a fraction is worth beside C = 0, and beside E = 0 less one step.
const IBM_BASE: u32 = DENOMINATOR_POWER - (4 * 64 + 24);

const IEEE_BASE: u32 = DENOMINATOR_POWER - (127 + 23);

// ## Reading

// A magnitude with its sign.
fn with_sign(neg: bool, a: u32) -> i32
    requires { a < 2 ^ 31 }
    ensures { result ≡ sign_magnitude neg a }
{
    if neg { 0 - a as i32 } else { a as i32 }
}

// The exponent of V = 2^k, which is k - 280.
fn exponent(k: u32) -> i16
    requires { k < 2 ^ 15 }
    ensures { result ≡ sub_ℕ k denominator_power }
{
    k as i16 - DENOMINATOR_POWER as i16
}

// An exponent, or 0 where the magnitude is 0: zero has the exponent 0.
fn exponent_unless_zero(a: u32, e: i16) -> i16
    ensures { result ≡ pick (a == 0) (pos 0) e }
{
    if a == 0 { 0 } else { e }
}

// The canonical pair of V = z × 2^k, by z and its magnitude: the power of two in the magnitude is counted out of it, and z is shifted by it
// with its sign. There is no branch on z: where it is 0, all 32 bits of the magnitude are trailing zeros, and z is shifted by none of them.
fn canonical(z: i32, a: u32, k: u32) -> Pair
    requires magnitude { a ≡ unsigned_abs z }
    requires low { k ≤ 2 ^ 14 }
    ensures { result ≡ pair_of (z *ℤ pos (2 ^ k)) }
{
    let twos = u32::trailing_zeros(a);
    let e = exponent_unless_zero(a, exponent(k + twos));
    let m = z >> (twos % 32);
    Pair { e, m }
}

// The fraction of an IBM word, which is sign and magnitude.
fn fraction_of(n: u32) -> u32
    ensures { (result ≡ fraction n) × (result < 2 ^ 24) }
{
    n % 0x100_0000
}

// Code 1: the pair of an IBM word, by its first byte, which has the sign and the characteristic, and a number whose last 24 bits are the
// fraction. The sign bit is taken off behind the product by 4: in the loop over a trace the compiler then adds up the exponent in one
// instruction, and in four where the product comes last.
pub fn ibm_parts(first: u8, rest: u32) -> Pair
    ensures { result ≡ pair_of (ibm_value (first * 2 ^ 24 + rest % 2 ^ 24)) }
{
    let f = fraction_of(rest);
    canonical(
        with_sign(0x80 <= first, f),
        f,
        IBM_BASE + first as u32 * 4 % 512,
    )
}

// The same by the whole word.
pub fn ibm(n: u32) -> Pair
    ensures { result ≡ pair_of (ibm_value n) }
{
    ibm_parts((n / 0x100_0000) as u8, n)
}

// The pair of V = z × 2^k, by the magnitude of 32 bits, which the compiler sees through: of 16 bits it takes four instructions more.
#[tactic(auto, using(numbers::proofs::SignLaws::signed_bits))]
fn scaled(z: i32, k: u32) -> Pair
    requires { k ≤ 2 ^ 14 }
    ensures { result ≡ pair_of (z *ℤ pos (2 ^ k)) }
{
    canonical(z, u32::of_signed(z).magnitude(), k)
}

// Code 2: the pair of a 32-bit number.
pub fn whole32(n: u32) -> Pair
    ensures { result ≡ pair_of (whole_value (signed_of 32 n)) }
{
    scaled(n.signed(), DENOMINATOR_POWER)
}

// Code 3: the pair of a 16-bit number.
pub fn whole16(n: u16) -> Pair
    ensures { result ≡ pair_of (whole_value (signed_of 16 n)) }
{
    scaled(i32::from(n.signed()), DENOMINATOR_POWER)
}

// The 16 bits of a number of 8 bits, with its sign.
pub fn extended(n: u8) -> u16
    ensures { signed_of 16 result ≡ signed_of 8 n }
{
    u16::of_signed(i16::from(n.cast_signed()))
}

// Code 8: the pair of an 8-bit number.
pub fn whole8(n: u8) -> Pair
    ensures { result ≡ pair_of (whole_value (signed_of 8 n)) }
{
    whole16(extended(n))
}

// Code 4: the pair of d / 2^g, by the gain g and the 16 bits of d.
pub fn gain_number(g: u8, d: u16) -> Pair
    ensures { result ≡ pair_of (gain_value g (signed_of 16 d)) }
{
    scaled(i32::from(d.signed()), DENOMINATOR_POWER - g as u32)
}

// Whether a word of four bytes has no value under a code: under code 4 its first byte isn't 00, under code 5 it is an infinity or a
// not-a-number, whose exponent is all ones.
#[tactic(auto, unfolding(numbers::specs::Walk::bytes_at))]
fn is_bad(code: Code, word: [u8; 4]) -> bool
    ensures { result ≡ is_bad (code_no code) (word_number (code_no code) word) }
{
    let n = u32::of_bytes(&word);
    match code {
        Code::Gain => 0x100_0000 <= n,
        Code::Ieee => 0x7f80_0000 <= n % 0x8000_0000,
        _ => false,
    }
}

// The cause against a word without a value.
fn bad_cause(code: Code) -> Cause
    ensures { cause_no result ≡ bad_number (code_no code) }
{
    match code {
        Code::Gain => Cause::GainWord,
        _ => Cause::NotFinite,
    }
}

// The exponent E of an IEEE single word.
fn ieee_exponent(n: u32) -> u32
    ensures { (result ≡ ieee_exponent 8 23 n) × (result < 256) }
{
    n / 0x80_0000 % 256
}

// Its significand, by the exponent: with the hidden bit, which a subnormal number hasn't.
fn significand_of(e: u32, n: u32) -> u32
    ensures { (result ≡ pick (e == 0) (ieee_fraction 23 n) (2 ^ 23 + ieee_fraction 23 n)) × (result < 2 ^ 24) }
{
    let t = n % 0x80_0000;
    if e == 0 { t } else { 0x80_0000 + t }
}

// The exponent by which its last place is counted: a subnormal number's is that of the least normal ones.
fn counted_exponent(e: u32) -> u32
    ensures { (result ≡ pick (e == 0) 1 e) × (result ≤ e + 1) }
{
    if e == 0 { 1 } else { e }
}

// Code 5: the pair of an IEEE single word that is finite. Of one that isn't, it is the pair of what the same rule gives.
pub fn ieee_number(n: u32) -> Pair
    ensures { result ≡ pair_of (ieee_value 8 23 n) }
{
    let e = ieee_exponent(n);
    let a = significand_of(e, n);
    canonical(
        with_sign(0x8000_0000 <= n, a),
        a,
        IEEE_BASE + counted_exponent(e),
    )
}

// The canonical pair of a word under a code. Of a word without a value it is the pair of what the same rule gives.
#[tactic(auto, unfolding(numbers::specs::Walk::bytes_at))]
pub fn pair_under(code: Code, word: [u8; 4]) -> Pair
    ensures { result ≡ pair_of (exact_value (code_no code) word) }
{
    let n = u32::of_bytes(&word);
    match code {
        Code::Ibm => ibm(n),
        Code::Whole32 => whole32(n),
        Code::Whole16 => whole16(u16::of_bytes(&[word[0], word[1]])),
        Code::Gain => gain_number(word[1], u16::of_bytes(&[word[2], word[3]])),
        Code::Whole8 => whole8(word[0]),
        Code::Ieee => ieee_number(n),
    }
}

// The canonical pair of a word under a number: where that is no code, what the rule of code 5 gives. This and the functions below take every
// number, as the C interface is given them: what they promise of those that are no code may not change.
#[tactic(auto, unfolding(numbers::specs::Walk::bytes_at))]
pub fn number(code: u32, word: [u8; 4]) -> Pair
    ensures { result ≡ pair_of (exact_value code word) }
{
    match Code::of(code as usize) {
        Some(code) => pair_under(code, word),
        None => ieee_number(u32::of_bytes(&word)),
    }
}

// What reading a word finds under a code: only here is a word refused, by 9 or 19.
#[tactic(auto, using(formats::proofs::CodeLaws::code_no_is))]
pub fn read_under(code: Code, word: [u8; 4]) -> Result<Pair, Cause>
    ensures { sampled result ≡ read_word (code_no code) word }
{
    if is_bad(code, word) {
        return Err(bad_cause(code));
    }
    Ok(pair_under(code, word))
}

// What reading a word finds under a number: 2 where that is no code.
pub fn read(code: u32, word: [u8; 4]) -> Result<Pair, Cause>
    ensures { sampled result ≡ read_word code word }
{
    read_under(Code::of(code as usize).ok_or(Cause::FormatCode)?, word)
}

// The refusal of a single sample: the place beside it is 0.
fn refusal(cause: Cause) -> Refusal
    ensures { (cause_no result.cause ≡ cause_no cause) × (place_no result.place ≡ 0) }
{
    Refusal {
        cause,
        place: Place(0),
    }
}

// Whether an IBM word is normal: for zero it is 00000000; otherwise the first hexadecimal digit of F isn't 0, unless C is 0.
#[tactic(auto, using(formats::proofs::NormalLaws::normal_tests, formats::proofs::NormalLaws::large))]
fn is_normal(n: u32) -> bool
    ensures { result ≡ is_normal n }
{
    let f = fraction_of(n);
    if f == 0 {
        return n == 0;
    }
    if 0x10_0000 <= f {
        return true;
    }
    n / 0x100_0000 % 128 == 0
}

// Whether it is an IBM word other than the normal word of its value.
#[tactic(auto, unfolding(numbers::specs::Walk::bytes_at))]
fn not_normal(code: u32, word: [u8; 4]) -> bool
    ensures { pick result 1 0 ≡ not_normal code word }
{
    code == 1 && !is_normal(u32::of_bytes(&word))
}

// One sample, from its word to its canonical pair.
pub fn read_word(code: u32, word: [u8; 4]) -> WordRead
    ensures { word_read result ≡ word_outcome code word }
{
    match read(code, word) {
        Ok(pair) => WordRead {
            answer: Ok(not_normal(code, word)),
            pair: pair.to_bytes(),
        },
        Err(cause) => WordRead {
            answer: Err(refusal(cause)),
            pair: [0; 6],
        },
    }
}

// ## Writing

// The four bytes of a word under a code: as many as a sample has, then 00.
fn single_word(code: Code, bits: u32) -> [u8; 4]
    ensures { result ≡ single_word (code_no code) bits }
{
    let b = bits.to_be_bytes();
    match code {
        Code::Whole16 => [b[2], b[3], 0, 0],
        Code::Whole8 => [b[3], 0, 0, 0],
        _ => b,
    }
}

// The four bytes of the word of a pair under a target code, or the cause against it: 11, 13 or 14.
fn word_of(code: u32, pair: [u8; 6]) -> Result<[u8; 4], Cause>
    ensures { word_found result ≡ pair_outcome code pair }
{
    let code = Code::of(code as usize).ok_or(Cause::TargetCode)?;
    let bits = Pair::of_bytes(pair).word(code)?;
    Ok(single_word(code, bits))
}

// One sample, from its pair to its word.
pub fn write_pair(code: u32, pair: [u8; 6]) -> PairWritten
    ensures { pair_written result ≡ pair_outcome code pair }
{
    match word_of(code, pair) {
        Ok(word) => PairWritten {
            answer: Ok(()),
            word,
        },
        Err(cause) => PairWritten {
            answer: Err(refusal(cause)),
            word: [0; 4],
        },
    }
}
