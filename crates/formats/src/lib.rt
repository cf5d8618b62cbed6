// Sample formats: the codes, and what a format and a word are. The definitions and laws of values and words stand beside it.
#![tactic(auto)]

ghost use Rattle.std.specs.Prelude.{◌≡◌, ◌<◌, ◌≤◌};
ghost use Rattle.formats.specs.Codes.{is_code, code_no, CodeOf, sample_bytes, whole_format, format_of};

// The five numbers of a format: r bits to a digit, p bits to a fraction, m characteristics, the base power b, and whether it has one more
// number below zero.
#[derive(Clone, Copy)]
pub struct Format {
    pub digit: u32,
    pub fraction: u32,
    pub characteristics: u32,
    pub base: u32,
    pub more: bool,
}

// A value's place in a format: its characteristic and its fraction.
#[derive(Clone, Copy)]
pub struct Placed {
    pub characteristic: u32,
    pub fraction: u32,
}

// The format codes: IBM's floating point, whole numbers of 32 and of 16 bits, fixed point with a gain, IEEE 754's single precision, and whole
// numbers of 8 bits.
#[derive(Clone, Copy, Debug, PartialEq, Eq)]
pub enum Code {
    Ibm,
    Whole32,
    Whole16,
    Gain,
    Ieee,
    Whole8,
}

// The power of two of the denominator.
pub const DENOMINATOR_POWER: u32 = 280;

impl Code {
    // The code with that number, if there is one.
    pub fn of(number: usize) -> Option<Code>
        ensures { CodeOf number result }
    {
        match number {
            1 => Some(Code::Ibm),
            2 => Some(Code::Whole32),
            3 => Some(Code::Whole16),
            4 => Some(Code::Gain),
            5 => Some(Code::Ieee),
            8 => Some(Code::Whole8),
            _ => None,
        }
    }

    // The number of the code.
    pub fn number(self) -> u32
        ensures { result ≡ code_no self }
    {
        match self {
            Code::Ibm => 1,
            Code::Whole32 => 2,
            Code::Whole16 => 3,
            Code::Gain => 4,
            Code::Ieee => 5,
            Code::Whole8 => 8,
        }
    }

    // The bytes of a sample under the code.
    pub fn width(self) -> usize
        ensures { (result ≡ sample_bytes (code_no self)) × (1 ≤ result) × (result ≤ 4) }
    {
        match self {
            Code::Whole16 => 2,
            Code::Whole8 => 1,
            _ => 4,
        }
    }

    // The format of the code.
    pub fn format(self) -> Format
        ensures { result ≡ format_of (code_no self) }
    {
        match self {
            Code::Ibm => Format {
                digit: 4,
                fraction: 24,
                characteristics: 128,
                base: DENOMINATOR_POWER - (4 * 64 + 24),
                more: false,
            },
            Code::Whole32 => whole_format(32),
            Code::Whole16 => whole_format(16),
            Code::Gain => Format {
                digit: 1,
                fraction: 15,
                characteristics: 256,
                base: DENOMINATOR_POWER - 255,
                more: true,
            },
            Code::Ieee => Format {
                digit: 1,
                fraction: 24,
                characteristics: 254,
                base: DENOMINATOR_POWER - 149,
                more: false,
            },
            Code::Whole8 => whole_format(8),
        }
    }
}

// The format of a whole number of w bits in two's complement.
fn whole_format(w: u32) -> Format
    requires { 0 < w }
    ensures { result ≡ whole_format w }
{
    Format {
        digit: 1,
        fraction: w - 1,
        characteristics: 1,
        base: DENOMINATOR_POWER,
        more: true,
    }
}

// Whether a number is a code. This and the next two take every number: what they promise of those that are no code may not change.
pub fn is_code(code: usize) -> bool
    ensures { result ≡ is_code code }
{
    Code::of(code).is_some()
}

// The bytes of a sample under a number, which for a number that is no code are four.
pub fn width_of(code: usize) -> usize
    ensures { (result ≡ sample_bytes code) × (1 ≤ result) × (result ≤ 4) }
{
    match Code::of(code) {
        Some(c) => c.width(),
        None => 4,
    }
}

// The format of a number, which for a number that is no code is one without characteristics.
pub fn format_of(code: usize) -> Format
    ensures { result ≡ format_of code }
{
    match Code::of(code) {
        Some(c) => c.format(),
        None => Format {
            digit: 1,
            fraction: 0,
            characteristics: 0,
            base: 0,
            more: false,
        },
    }
}
