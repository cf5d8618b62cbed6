// The word of the nearest value of a code to V = ± odd × 2^power.

ghost use Rattle.std.specs.Prelude.{◌≡◌, ◌+◌, ◌-◌, ◌*◌, ◌^◌, ◌<◌, ◌≤◌, not, ◌&&◌, eqb};
ghost use Rattle.numbers.specs.Walk.{pick};
ghost use Rattle.numbers.specs.SignMagnitude.{sign_magnitude};
ghost use Rattle.formats.specs.Format.{unit, limit, beside};
ghost use Rattle.formats.specs.Codes.{code_no, whole_format, gain_format};
ghost use Rattle.formats.specs.Steps.{Float};
ghost use Rattle.formats.specs.Words.{float_word, whole_word, gain_word, word_of, word_bits};
ghost use Rattle.formats.specs.Nearest.{nearest_multiple};
ghost use Rattle.value.specs.Pair.{mantissa_bits};
ghost use Rattle.value.specs.Writing.{rounded_by, rounded};
ghost use Rattle.value.specs.Parts.{format, sample_bits, worth, NearPlace};
ghost use Rattle.formats.specs.declared.Code.TheVariants.{Gain};

use crate::exact::{complement, last_place, lowest, one_more, packed, sample_bits, shifted_up};
use crate::parts::Odd;
use crate::{Rounded, ZERO_WORD};
use formats::{Code, Placed};

// The place of the nearest value in a format, and whether that is another value.
#[derive(Clone, Copy)]
struct RoundedPlace {
    place: Placed,
    changed: bool,
}

// A power of two.
fn two_to(s: u32) -> u32
    requires { s < 32 }
    ensures { (result ≡ 2 ^ s) × (0 < result) }
{
    shifted_up(1, s)
}

// The largest number whose double is below 2^s.
fn under_half(s: u32) -> u32
    requires { s < 32 }
    ensures { (2 * result < 2 ^ s) × (2 ^ s ≤ 2 * result + 2) }
{
    (two_to(s) - 1) / 2
}

// o / 2^s to the nearest whole number, and of two equally near to the lower one.
fn rounded_whole(o: u32, s: u32) -> u32
    requires { o < 2 ^ (mantissa_bits - 1) }
    ensures { result * 2 ^ s ≡ nearest_multiple (2 ^ s) o }
{
    if 31 < s {
        return 0;
    }
    (o + under_half(s)) >> s
}

// The largest fraction of a sign under a code.
fn most(code: Code, negative: bool) -> u32
    ensures { result ≡ limit (format code) negative - 1 }
{
    let p = two_to(code.format().fraction);
    if one_more(code, negative) { p } else { p - 1 }
}

// The sign of a fraction: zero has none.
fn sign_of(negative: bool, f: u32) -> bool
    ensures { result ≡ (negative && not (eqb f 0)) }
{
    negative && f != 0
}

// The word of the value of a place under code 4, with the smallest gain: f is halved as often as it is even and the gain isn't 0.
fn gain_bits(negative: bool, c: u32, f: u32) -> u32
    requires { (c ≤ 255) × (f < 2 ^ 15 + pick negative 1 0) }
    ensures { result ≡ word_bits (gain_word (sign_magnitude negative (f * unit gain_format c))) }
{
    if f == 0 {
        return ZERO_WORD;
    }
    let t = u32::trailing_zeros(f).min(255 - c);
    (255 - c - t) * 0x1_0000 + complement(16, negative, f >> t)
}

impl Odd {
    // The place of the nearest value of a code. The least characteristic that reaches V is found by bit lengths, as in `place`. Beyond the last
    // one V is beyond the range, and the end is taken. Where the last place isn't above the lowest 1 of V in binary, V is one of the format's.
    // Else V is rounded to a whole number of last places, which may be the first number of the next characteristic, or, beside the last, beyond
    // the end.
    fn near_place(self, code: Code) -> RoundedPlace
        ensures { NearPlace (format code) self.negative (self.odd * 2 ^ self.power) result }
    {
        let x = code.format();
        let c = lowest(
            code,
            self.length(one_more(code, self.negative)) + self.power,
        );
        let end = x.characteristics - 1;
        if end < c {
            return placed(end, most(code, self.negative), true);
        }
        let last = last_place(code, c);
        if last <= self.power {
            return placed(c, shifted_up(self.odd, self.power - last), false);
        }
        let f = rounded_whole(self.odd, last - self.power);
        if c == end {
            return placed(c, f.min(most(code, self.negative)), true);
        }
        if f == two_to(x.fraction) {
            return placed(c + 1, two_to(x.fraction - x.digit), true);
        }
        placed(c, f, true)
    }

    // The word of the nearest value in a format of sign and magnitude. This and the next stand beside those of exact writing, as the laws
    // differ: a place is always found here. What both do alike is in `packed`, `complement` and `Code`.
    fn near_float(self, code: Code, y: u32) -> Rounded
        requires { Float (format code) 32 y }
        ensures { rounded result ≡ rounded_by (float_word (format code) 32 y) (format code) (worth self) }
    {
        let p = self.near_place(code);
        let c = p.place.characteristic;
        let f = p.place.fraction;
        Rounded {
            bits: packed(y, sign_of(self.negative, f), c, f),
            changed: p.changed,
        }
    }

    // The word of the nearest whole number of a sample's bits.
    fn near_whole(self, code: Code) -> Rounded
        requires { format code ≡ whole_format (sample_bits code) }
        ensures { rounded result ≡ rounded_by (whole_word (sample_bits code)) (format code) (worth self) }
    {
        let p = self.near_place(code);
        let f = p.place.fraction;
        Rounded {
            bits: complement(sample_bits(code), sign_of(self.negative, f), f),
            changed: p.changed,
        }
    }

    // The word of the nearest value under code 4.
    fn near_gain(self) -> Rounded
        ensures { rounded result ≡ rounded_by gain_word (format Gain) (worth self) }
    {
        let p = self.near_place(Code::Gain);
        Rounded {
            bits: gain_bits(self.negative, p.place.characteristic, p.place.fraction),
            changed: p.changed,
        }
    }

    // The word of the nearest value under a code.
    pub(crate) fn nearest(self, code: Code) -> Rounded
        ensures { rounded result ≡ rounded_by (word_of (code_no code)) (format code) (worth self) }
    {
        match code {
            Code::Ibm => self.near_float(code, 24),
            Code::Whole32 => self.near_whole(code),
            Code::Whole16 => self.near_whole(code),
            Code::Gain => self.near_gain(),
            Code::Ieee => self.near_float(code, 23),
            Code::Whole8 => self.near_whole(code),
        }
    }
}

// A place by its characteristic and its fraction.
fn placed(characteristic: u32, fraction: u32, changed: bool) -> RoundedPlace
    ensures { result ≡ record { place = beside characteristic fraction; «changed» = changed } }
{
    RoundedPlace {
        place: Placed {
            characteristic,
            fraction,
        },
        changed,
    }
}
