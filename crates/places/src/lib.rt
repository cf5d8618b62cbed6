// Byte numbers and places: the one conversion.
#![tactic(auto)]

ghost use Rattle.std.specs.Prelude.{◌≡◌};
ghost use Rattle.numbers.specs.Places.{located, field_place};

use numbers::{ByteNo, Place};

// The one conversion, where byte number 1 stands at the place start: at 0 for the byte numbers of
// the binary header, at the trace's first byte for those of a trace header. Byte number 0 stands nowhere, nor
// does one whose place would be no number of 64 bits.
pub fn place_of(start: Place, b: ByteNo) -> Option<Place>
    ensures { result ≡ located start b }
{
    let past = b.0.checked_sub(1)?;
    let at = start.0.checked_add(past as usize)?;
    Some(Place(at))
}

// The place of a field of a header whose byte number 1 stands at the place start. A byte number that
// stands nowhere gets the last number of 64 bits, a place at which no input has a byte.
pub fn field_at(start: Place, b: ByteNo) -> Place
    ensures { result ≡ field_place start b }
{
    place_of(start, b).unwrap_or(Place(usize::MAX))
}
