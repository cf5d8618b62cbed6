// What every layer uses: the types of byte numbers and places, causes and refusals, numbers of bytes, two's complement.
#![tactic(auto)]

ghost use Rattle.std.specs.Prelude.{◌≡◌, ◌^◌, ◌≤◌, [], ◌∷◌, unsigned_abs, ℕ, ℤ, length, ◌*◌, ◌-◌, ◌==◌};
ghost use Rattle.numbers.specs.BigEndian.{number, bytes_of};
ghost use Rattle.numbers.specs.Walk.{pick, copy_of};
ghost use Rattle.std.proofs.Common.{rules};
ghost use Rattle.numbers.specs.Cause.{cause_no, numbered_by};
ghost use Rattle.numbers.specs.TwosComplement.{signed_of, bits_of};

// A byte number, document 01's own term: the standard's, counted from 1.
#[derive(Clone, Copy)]
pub struct ByteNo(pub u32);

// A place, document 01's own term: an offset in the input, counted from 0. A length is the place
// behind the last byte.
#[derive(Clone, Copy, Debug, PartialEq, Eq)]
pub struct Place(pub usize);

// The causes of a refusal, in the order of their numbers. A reel's: it is shorter than its headers; its format code, N or interval is outside
// its limits; bytes stand behind the last whole trace; it has more than 100,000 traces; a trace's own N or interval is neither 0 nor the
// reel's; the first byte of a gain word isn't 00. An output's: it is too short. A target code's: it is none. A record's: its form is wrong; it
// holds a number no record has; a sample doesn't fit the target code. Of looking up: no such trace, no such field. A listing's: its length or a
// line. A reel's again: a scalar that isn't allowed, an infinity or a not-a-number, the end of a trailer. A box's: its lengths, its rules.
#[derive(Clone, Copy, Debug, PartialEq, Eq)]
pub enum Cause {
    ShortReel,
    FormatCode,
    SampleCount,
    Interval,
    BytesLeft,
    TooManyTraces,
    TraceSamples,
    TraceInterval,
    GainWord,
    ShortOutput,
    TargetCode,
    RecordForm,
    RecordNumber,
    Unfit,
    NoTrace,
    NoField,
    Listing,
    Scalar,
    NotFinite,
    Trailer,
    BoxLengths,
    BoxRule,
}

impl Cause {
    // The number of the cause in the table of refusals.
    pub fn number(self) -> u8
        ensures { result ≡ cause_no self }
    {
        match self {
            Cause::ShortReel => 1,
            Cause::FormatCode => 2,
            Cause::SampleCount => 3,
            Cause::Interval => 4,
            Cause::BytesLeft => 5,
            Cause::TooManyTraces => 6,
            Cause::TraceSamples => 7,
            Cause::TraceInterval => 8,
            Cause::GainWord => 9,
            Cause::ShortOutput => 10,
            Cause::TargetCode => 11,
            Cause::RecordForm => 12,
            Cause::RecordNumber => 13,
            Cause::Unfit => 14,
            Cause::NoTrace => 15,
            Cause::NoField => 16,
            Cause::Listing => 17,
            Cause::Scalar => 18,
            Cause::NotFinite => 19,
            Cause::Trailer => 20,
            Cause::BoxLengths => 21,
            Cause::BoxRule => 22,
        }
    }
}

// A refusal: the first cause against what was lent, with the place that stands beside it in the table, which is a length for short reels and
// outputs, and for a listing of another length.
#[derive(Clone, Copy, Debug, PartialEq, Eq)]
pub struct Refusal {
    pub cause: Cause,
    pub place: Place,
}

// A refusal by any number, a cause's or none: the number, with the place that stands beside it.
#[derive(Clone, Copy, Debug, PartialEq, Eq)]
pub struct Numbered {
    pub number: u8,
    pub place: Place,
}

// What an input is refused with: it tells its number and the place beside it.
pub trait Refuses: Copy {
    ghost use Rattle.numbers.specs.declared.Numbered.{Numbered};

    ghost numbered: { Self → Numbered };

    // Its number, and the place beside it.
    fn numbered(self) -> Numbered
        ensures { result ≡ numbered self };
}

impl Refuses for Numbered {
    ghost numbered = { λ r. r };

    fn numbered(self) -> Numbered {
        Numbered {
            number: self.number,
            place: self.place,
        }
    }
}

impl Refuses for Refusal {
    ghost numbered = { numbered_by };

    fn numbered(self) -> Numbered {
        Numbered {
            number: self.cause.number(),
            place: self.place,
        }
    }
}

// A number of one, two or four bytes: its bytes, of which the first stands highest, and its bits in two's complement.
pub trait Number: Copy {
    type Signed: Copy;

    ghost value: { Self → ℕ };

    ghost integer: { Self.Signed → ℤ };

    ghost SIZE: { ℕ };

    // Its bytes.
    const SIZE: usize;

    // The number of as many bytes; of any other count of bytes it is 0.
    fn of_bytes(bytes: &[u8]) -> Self
        ensures { value result ≡ pick (length bytes.now == SIZE) (number bytes.now) 0 };

    // The number in the lowest bytes of another, as many as it has itself.
    fn of_low(bits: u32) -> Self
        ensures { bytes_of SIZE (value result) ≡ bytes_of SIZE bits };

    // Stores the number in a slice of as many bytes. A slice of another length is left as it was.
    fn put(self, out: &mut [u8])
        ensures { out.new ≡ copy_of (bytes_of SIZE (value self)) out.old };

    // The signed number of these bits.
    fn signed(self) -> Self::Signed
        ensures { integer result ≡ signed_of (8 * SIZE) (value self) };

    // The bits of a signed number.
    fn of_signed(z: Self::Signed) -> Self
        ensures { value result ≡ bits_of (8 * SIZE) (integer z) };

    // The magnitude of the signed number of these bits, by subtraction from zero.
    fn magnitude(self) -> Self
        ensures is { value result ≡ unsigned_abs (signed_of (8 * SIZE) (value self)) }
        ensures most { value result ≤ 2 ^ (8 * SIZE - 1) };

    ghost short: { SIZE ≤ 8 };
}

impl Number for u8 {
    type Signed = i8;

    ghost SIZE = { 1 };

    const SIZE: usize = 1;

    ghost value = { λ n. n };

    ghost integer = { λ z. z };

    fn of_bytes(bytes: &[u8]) -> u8 {
        match bytes.as_array::<1>() {
            Some(bytes) => bytes[0],
            None => 0,
        }
    }

    fn of_low(bits: u32) -> u8 {
        (bits % 0x100) as u8
    }

    #[tactic(auto, unfolding(crate::specs::Walk::copy_of))]
    fn put(self, out: &mut [u8]) {
        if let Some(bytes) = out.as_mut_array::<1>() {
            *bytes = [self];
        }
    }

    fn signed(self) -> i8 {
        self.cast_signed()
    }

    fn of_signed(z: i8) -> u8 {
        z.cast_unsigned()
    }

    ghost short = { Prim.search rules };

    fn magnitude(self) -> u8 {
        if 0x80 <= self {
            0u8.wrapping_sub(self)
        } else {
            self
        }
    }
}

impl Number for u16 {
    type Signed = i16;

    ghost SIZE = { 2 };

    const SIZE: usize = 2;

    ghost value = { λ n. n };

    ghost integer = { λ z. z };

    fn of_bytes(bytes: &[u8]) -> u16 {
        match bytes.as_array::<2>() {
            Some(bytes) => u16::from_be_bytes(*bytes),
            None => 0,
        }
    }

    fn of_low(bits: u32) -> u16 {
        (bits % 0x1_0000) as u16
    }

    #[tactic(auto, unfolding(crate::specs::Walk::copy_of))]
    fn put(self, out: &mut [u8]) {
        if let Some(bytes) = out.as_mut_array::<2>() {
            *bytes = self.to_be_bytes();
        }
    }

    fn signed(self) -> i16 {
        self.cast_signed()
    }

    fn of_signed(z: i16) -> u16 {
        z.cast_unsigned()
    }

    ghost short = { Prim.search rules };

    fn magnitude(self) -> u16 {
        if 0x8000 <= self {
            0u16.wrapping_sub(self)
        } else {
            self
        }
    }
}

impl Number for u32 {
    type Signed = i32;

    ghost SIZE = { 4 };

    const SIZE: usize = 4;

    ghost value = { λ n. n };

    ghost integer = { λ z. z };

    fn of_bytes(bytes: &[u8]) -> u32 {
        match bytes.as_array::<4>() {
            Some(bytes) => u32::from_be_bytes(*bytes),
            None => 0,
        }
    }

    fn of_low(bits: u32) -> u32 {
        bits
    }

    #[tactic(auto, unfolding(crate::specs::Walk::copy_of))]
    fn put(self, out: &mut [u8]) {
        if let Some(bytes) = out.as_mut_array::<4>() {
            *bytes = self.to_be_bytes();
        }
    }

    fn signed(self) -> i32 {
        self.cast_signed()
    }

    fn of_signed(z: i32) -> u32 {
        z.cast_unsigned()
    }

    ghost short = { Prim.search rules };

    fn magnitude(self) -> u32 {
        if 0x8000_0000 <= self {
            0u32.wrapping_sub(self)
        } else {
            self
        }
    }
}
