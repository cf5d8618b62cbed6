// Looking up one header field of a reel.
#![tactic(auto)]

ghost use Rattle.std.specs.Prelude.{◌≡◌, ◌^◌, ◌<◌, ◌≤◌};
ghost use Rattle.numbers.specs.Places.{place_no};
ghost use Rattle.reel.specs.Layout.{traces_of};
ghost use Rattle.reel.specs.Meaning.{filled, trace_number};
ghost use Rattle.header_fields.specs.HeaderField.{bytes_of, field_of};
ghost use Rattle.look_up.specs.LookUp.{field_in, header_fields, field_at, header_number, look_up_outcome, looked_up};
ghost use Rattle.look_up.specs.Parts.{in_row, in_rows, bytes_or_none, width_of, found_field, Own};

use header_fields::{Field, Width};
use numbers::{ByteNo, Cause, Place, Refusal};
use reel::Numbers;
use std::ops::Range;

// ## The field

// A row of fields of one width, one behind the other: their byte numbers, and the width.
struct Row(Range<u32>, Width);

// The rows of the binary header.
const BINARY_ROWS: [Row; 2] = [Row(3201..3213, Width::Four), Row(3213..3261, Width::Two)];

// The rows of a trace header.
const TRACE_ROWS: [Row; 6] = [
    Row(1..29, Width::Four),
    Row(29..37, Width::Two),
    Row(37..69, Width::Four),
    Row(69..73, Width::Two),
    Row(73..89, Width::Four),
    Row(89..181, Width::Two),
];

impl Row {
    // The width of the row's fields, where one of them begins at byte number b.
    fn width_at(&self, b: u32) -> Option<Width>
        ensures { bytes_or_none result ≡ in_row self.now.0.start (bytes_of self.now.1) b }
    {
        let past = b.checked_sub(self.0.start)?;
        if past % self.1.bytes() == 0 {
            return Some(self.1);
        }
        None
    }
}

// The width of the field that begins at byte number b, in a header of such rows, which stand in order.
fn width_in(rows: &[Row], b: u32) -> Option<Width>
    ensures { bytes_or_none result ≡ in_rows rows.now b }
{
    for row in rows {
        if b < row.0.end {
            return row.width_at(b);
        }
    }
    None
}

// The same in the header that a trace number means: 0 the binary header, 1 that of the first trace. Callers in C give the number so.
fn width_at(trace: usize, b: u32) -> Option<Width>
    ensures { bytes_or_none result ≡ width_of (field_in b (header_fields trace)) }
{
    if trace == 0 {
        width_in(&BINARY_ROWS, b)
    } else {
        width_in(&TRACE_ROWS, b)
    }
}

// The field that begins there.
fn field_at(trace: usize, b: ByteNo) -> Option<Field>
    ensures { found_field result ≡ field_at trace b }
{
    let width = width_at(trace, b.0)?;
    Some(Field { begins: b, width })
}

// ## Its number

// A trace's number, with the reel's own in place of 0.
fn fill(own: usize, z: i32) -> i32
    requires { own < 2 ^ 31 }
    ensures { result ≡ filled own z }
{
    if z == 0 { own as i32 } else { z }
}

// The number of a field of the trace at the place start, with 115 and 117 filled in.
fn trace_number(reel: &[u8], own: Numbers, start: Place, field: Field) -> i32
    requires { (own.samples < 2 ^ 31) × (own.interval < 2 ^ 31) }
    ensures { result ≡ trace_number reel.now own.samples own.interval (place_no start) (field_of field) }
{
    let z = field.number(reel, start);
    match field.begins.0 {
        115 => fill(own.samples, z),
        117 => fill(own.interval, z),
        _ => z,
    }
}

// The number of a field of a header that the reel has. A trace stands behind all those of a smaller number.
fn header_number(reel: &[u8], own: Numbers, trace: usize, field: Field) -> i32
    requires { Own reel.now own.samples own.interval own.stride × (trace ≤ traces_of reel.now) }
    ensures { result ≡ header_number reel.now trace (field_of field) }
{
    match trace.checked_sub(1) {
        None => field.number(reel, Place(0)),
        Some(before) => {
            let start = 3600 + before * own.stride;
            trace_number(reel, own, Place(start), field)
        }
    }
}

// ## The call

// One header field of a reel: the signed number in it, or the first cause, 15 and 16 among them, the trace number and then the field.
pub fn look_up(reel: &[u8], trace: usize, b: ByteNo) -> Result<i32, Refusal>
    ensures { looked_up result ≡ look_up_outcome reel.now trace b }
{
    let own = reel::judge_reel(reel)?;
    if own.traces < trace {
        return Err(Refusal {
            cause: Cause::NoTrace,
            place: Place(0),
        });
    }
    let Some(field) = field_at(trace, b) else {
        return Err(Refusal {
            cause: Cause::NoField,
            place: Place(0),
        });
    };
    Ok(header_number(reel, own, trace, field))
}
