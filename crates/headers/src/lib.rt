// A trace header as a record holds it: its elevations and coordinates at their smallest powers, and fields 115 and 117 filled in; and
// the cause 13 against a record's scalars.
#![tactic(auto)]

ghost use Rattle.std.specs.Prelude.{◌≡◌, ◌+◌, ◌*◌, ◌^◌, ◌≤◌, ◌<◌, not, length, false, MatchOption};
ghost use Rattle.numbers.specs.Walk.{bytes_at};
ghost use Rattle.numbers.specs.Places.{place_no, byte_no, byte_place};
ghost use Rattle.numbers.specs.Cause.{checked, refuse_if};
ghost use Rattle.scalars.specs.Scalar.{is_smallest};
ghost use Rattle.headers.specs.Header.{header_size, is_header, header_judged, header_read};
ghost use Rattle.headers.specs.Parts.{number2, numbers_in, group_lowered, own_or, field_filled};

use numbers::{ByteNo, Cause, Number, Place, Refusal};
use std::array;

// ## The groups of a header

// A group of a trace header: the byte numbers of the first of K numbers of four bytes each, and of the scalar that acts on them.
#[derive(Clone, Copy)]
struct Group<const K: usize> {
    first: ByteNo,
    scalar: ByteNo,
    ghost within: { (1 ≤ byte_no first) × (byte_no first + 4 * K ≤ 181) × (1 ≤ byte_no scalar) × (byte_no scalar ≤ 179) },
}

// Fields 41 to 65 under field 69, and fields 73 to 85 under field 71.
const ELEVATIONS: Group<7> = Group {
    first: ByteNo(41),
    scalar: ByteNo(69),
};

const COORDINATES: Group<4> = Group {
    first: ByteNo(73),
    scalar: ByteNo(71),
};

impl<const K: usize> Group<K> {
    // The numbers of the group in a header.
    fn numbers(self, header: &[u8; 180]) -> [i32; K]
        ensures { result ≡ numbers_in header.now K (byte_place 0 (byte_no self.entry.first)) }
    {
        let first = places::field_at(Place(0), self.first).0;
        array::from_fn(|k| slices::number_at::<u32>(header, Place(first + 4 * k)).signed())
    }

    // The scalar of the group in a header.
    fn scalar(self, header: &[u8; 180]) -> i16
        ensures { result ≡ number2 header.now (byte_place 0 (byte_no self.entry.scalar)) }
    {
        slices::number_at::<u16>(header, places::field_at(Place(0), self.scalar)).signed()
    }

    // 13 at the scalar of the group, where it isn't that of its smallest power; byte number 1 of the header stands at the place start.
    fn check(self, header: &[u8; 180], start: Place) -> Result<(), Refusal>
        requires { place_no start + header_size < 2 ^ 64 }
        ensures { let scalar = byte_no self.entry.scalar in checked result ≡ refuse_if (not (is_smallest (numbers_in header.now K (byte_place 0 (byte_no self.entry.first))) (number2 header.now (byte_place 0 scalar)))) 13 (byte_place (place_no start) scalar) }
    {
        if scalars::is_smallest(self.numbers(header), self.scalar(header)) {
            return Ok(());
        }
        Err(Refusal {
            cause: Cause::RecordNumber,
            place: places::field_at(start, self.scalar),
        })
    }

    // Takes the group of a header to the smallest power that serves it, in a copy of the header.
    fn lower(self, header: &[u8; 180], out: &mut [u8; 180])
        ensures { out.new ≡ group_lowered K (byte_place 0 (byte_no self.entry.first)) (byte_place 0 (byte_no self.entry.scalar)) header.now out.old }
    {
        let numbers = self.numbers(header);
        let scale = scalars::scale_of(numbers, self.scalar(header));
        let first = places::field_at(Place(0), self.first).0;
        // By places: `chunks_exact_mut` was tried, and the proof did not close, as nothing is known of the bytes that were written.
        for (k, number) in numbers.iter().enumerate() {
            let at = first + 4 * k;
            u32::of_signed(*number * scale.factor).put(&mut out[at..at + 4]);
        }
        let at = places::field_at(Place(0), self.scalar).0;
        u16::of_signed(scale.scalar).put(&mut out[at..at + 2]);
    }
}

// The header that stands whole from a place on.
fn header_at(s: &[u8], start: Place) -> Option<&[u8; 180]>
    ensures { MatchOption result (is_header s.now (place_no start) ≡ false) (λ header. (place_no start + header_size ≤ length s.now) × (header.now ≡ bytes_at s.now (place_no start) header_size)) }
{
    s.get(start.0..)?.first_chunk()
}

// 13 against the scalars of a header that stands whole from a place on: field 69, then field 71.
pub fn judge_header(s: &[u8], start: Place) -> Result<(), Refusal>
    ensures { checked result ≡ header_judged s.now (place_no start) }
{
    let Some(header) = header_at(s, start) else {
        return Ok(());
    };
    ELEVATIONS.check(header, start)?;
    COORDINATES.check(header, start)
}

// ## The header of a trace of a reel, as its record holds it

// A trace's own number, or the reel's where it is 0.
fn own_or(own: u16, number: u16) -> u16
    ensures { result ≡ own_or own number }
{
    if number == 0 { own } else { number }
}

// Fills in a field of a header, in a copy of it.
fn fill_field(header: &[u8; 180], field: ByteNo, own: u16, out: &mut [u8; 180])
    requires { (1 ≤ byte_no field) × (byte_no field < header_size) }
    ensures { out.new ≡ field_filled header.now own 0 (byte_no field) out.old }
{
    let at = places::field_at(Place(0), field);
    own_or(own, slices::number_at::<u16>(header, at)).put(&mut out[at.0..at.0 + 2]);
}

// The header of the trace at a place, as the record of a reel of n samples a trace and interval i holds it.
pub fn read_header(reel: &[u8], n: u16, i: u16, at: Place, out: &mut [u8])
    ensures { out.new ≡ header_read reel.now n i (place_no at) out.old }
{
    let Some(header) = header_at(reel, at) else {
        return;
    };
    let Some(out) = out.as_mut_array::<180>() else {
        return;
    };
    // As a slice: an array is copied by `memmove`, a name that who links for C may not have.
    slices::copy(header, out);
    ELEVATIONS.lower(header, out);
    COORDINATES.lower(header, out);
    fill_field(header, ByteNo(115), n, out);
    fill_field(header, ByteNo(117), i, out);
}
