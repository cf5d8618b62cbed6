// The form of a record: the causes 12 and 13 against any bytes that are lent as one; under a target code 14 as well, trace by trace.
#![tactic(auto)]

ghost use Rattle.std.specs.Prelude.{◌≡◌, not, ◌&&◌, ◌+◌, ◌-◌, ◌*◌, ◌^◌, ◌≤◌, ◌<◌, length, get_or, leb, ltb, eqb};
ghost use Rattle.numbers.specs.Walk.{walk, bytes_at};
ghost use Rattle.numbers.specs.Cause.{checked, refuse_if, then, first_of};
ghost use Rattle.numbers.specs.Places.{place_no, byte_no, byte_place};
ghost use Rattle.value.specs.Pair.{pair_in};
ghost use Rattle.reel.specs.Layout.{number16};
ghost use Rattle.reel.specs.Causes.{most_traces};
ghost use Rattle.record.specs.Kind.{tag04};
ghost use Rattle.record.specs.Form.{field_head, to_samples, field_cause, card_cause, cards_causes, number_causes, binary_start, binary_causes, pair_cause_in, share_in, held_stride_in, header_causes, end_causes, form_causes, numbers_in, record_judged};
ghost use Rattle.record.specs.Judged.{judged};
ghost use Rattle.record.specs.Parts.{pairs_by, field_by, fields_by, trace_by, form_from};

use numbers::{ByteNo, Cause, Place, Refusal};
use value::Pair;

// What a call on a whole reel or record answers that was taken: T, N and the length of what it wrote.
#[derive(Clone, Copy)]
pub struct Taken {
    pub traces: usize,
    pub samples: usize,
    pub length: usize,
}

// The same with a count: reading a reel counts its words that are not normal, nearest writing the samples whose value changed.
#[derive(Clone, Copy)]
pub struct Counted {
    pub traces: usize,
    pub samples: usize,
    pub length: usize,
    pub count: usize,
}

// N, and the count of traces that a record says, which is T where it is valid.
#[derive(Clone, Copy)]
pub struct Numbers {
    pub samples: usize,
    pub traces: usize,
}

// Whether a field of that length, with its tag and length before it, ends within so many bytes.
fn ends_within(bytes: usize, size: usize, at: usize) -> bool
    ensures { result ≡ leb (at + (field_head + size)) bytes }
{
    if bytes < at {
        return false;
    }
    if bytes - at < 3 {
        return false;
    }
    size <= bytes - at - 3
}

// 12: whether a field of this tag and length stands whole at a place.
fn check_field(record: &[u8], tag: u8, size: usize, place: Place) -> Result<(), Refusal>
    ensures { checked result ≡ field_cause «record».now tag size (place_no place) }
{
    let at = place.0;
    if !ends_within(record.len(), size, at) {
        return Err(Refusal {
            cause: Cause::RecordForm,
            place,
        });
    }
    if record[at] != tag {
        return Err(Refusal {
            cause: Cause::RecordForm,
            place,
        });
    }
    if slices::number_at::<u16>(record, Place(at + 1)) as usize != size {
        return Err(Refusal {
            cause: Cause::RecordForm,
            place,
        });
    }
    Ok(())
}

// 13: the first card byte 00.
fn check_card_bytes(record: &[u8]) -> Result<(), Refusal>
    requires { 3203 ≤ length «record».now }
    ensures { checked result ≡ first_of (walk (card_cause «record».now) 1 3200 3) }
{
    for i in 0..3200 {
        let at = 3 + i;
        if record[at] == 0 {
            return Err(Refusal {
                cause: Cause::RecordNumber,
                place: Place(at),
            });
        }
    }
    Ok(())
}

// 12 and 13 of tag 01.
#[tactic(auto, unfolding(crate::specs::Form::cards_causes))]
fn check_cards(record: &[u8]) -> Result<(), Refusal>
    ensures { checked result ≡ cards_causes «record».now }
{
    check_field(record, 1, 3200, Place(0))?;
    check_card_bytes(record)
}

// 13: a number unlike the one that belongs there.
fn check_same(n: u16, own: u16, place: Place) -> Result<(), Refusal>
    ensures { checked result ≡ refuse_if (not (eqb n own)) 13 (place_no place) }
{
    if n == own {
        return Ok(());
    }
    Err(Refusal {
        cause: Cause::RecordNumber,
        place,
    })
}

// 13 of tag 02: the interval, N and the format code. Byte number 1 would stand at the place 6.
fn check_numbers(i: u16, n: u16, code: u16) -> Result<(), Refusal>
    ensures { checked result ≡ number_causes i n code }
{
    reel::check_limits(
        i as usize,
        1,
        32767,
        Refusal {
            cause: Cause::RecordNumber,
            place: places::field_at(Place(6), ByteNo(3217)),
        },
    )?;
    reel::check_limits(
        n as usize,
        1,
        32767,
        Refusal {
            cause: Cause::RecordNumber,
            place: places::field_at(Place(6), ByteNo(3221)),
        },
    )?;
    check_same(code, 0, places::field_at(Place(6), ByteNo(3225)))
}

// The number in a field of the binary header.
fn binary_number(record: &[u8], b: ByteNo) -> u16
    requires { 1 ≤ byte_no b }
    ensures { result ≡ number16 «record».now (byte_place binary_start (byte_no b)) }
{
    slices::number_at::<u16>(record, places::field_at(Place(6), b))
}

// 12 and 13 of tag 02.
#[tactic(auto, unfolding(crate::specs::Form::binary_causes))]
fn check_binary(record: &[u8]) -> Result<(), Refusal>
    ensures { checked result ≡ binary_causes «record».now }
{
    check_field(record, 2, 60, Place(3203))?;
    check_numbers(
        binary_number(record, ByteNo(3217)),
        binary_number(record, ByteNo(3221)),
        binary_number(record, ByteNo(3225)),
    )
}

// The pair at a place.
fn pair_at(record: &[u8], at: usize) -> Pair
    requires { at + 6 ≤ length «record».now }
    ensures { result ≡ pair_in (bytes_at «record».now at 6) }
{
    Pair::of_bytes([
        record[at],
        record[at + 1],
        record[at + 2],
        record[at + 3],
        record[at + 4],
        record[at + 5],
    ])
}

// 13: the first of n pairs from start on that isn't canonical.
fn check_canonical(record: &[u8], n: usize, start: usize) -> Result<(), Refusal>
    requires { start + n * 6 ≤ length «record».now }
    ensures { checked result ≡ first_of (walk (pair_cause_in tag04 «record».now) 6 n start) }
{
    for i in 0..n {
        let at = start + i * 6;
        if !pair_at(record, at).is_canonical() {
            return Err(Refusal {
                cause: Cause::RecordNumber,
                place: Place(at),
            });
        }
    }
    Ok(())
}

// 13: a trace field unlike the reel's number, by the byte number where it begins.
fn check_like(record: &[u8], start: usize, b: ByteNo, own: u16) -> Result<(), Refusal>
    requires { (1 ≤ byte_no b) × (start + byte_no b < length «record».now) }
    ensures { checked result ≡ refuse_if (not (eqb (number16 «record».now (byte_place start (byte_no b))) own)) 13 (byte_place start (byte_no b)) }
{
    let p = places::field_at(Place(start), b);
    check_same(slices::number_at::<u16>(record, p), own, p)
}

// 12 and 13 of a trace's header, whose tag 03 should stand at a place.
#[tactic(auto, unfolding(crate::specs::Form::header_causes))]
fn check_header(record: &[u8], n: u16, i: u16, at: Place) -> Result<(), Refusal>
    ensures { checked result ≡ header_causes «record».now n i (place_no at) }
{
    let p = at.0;
    check_field(record, 3, 180, at)?;
    headers::judge_header(record, Place(p + 3))?;
    check_like(record, p + 3, ByteNo(115), n)?;
    check_like(record, p + 3, ByteNo(117), i)
}

// The samples of each field but the last, in the trace of n samples whose tag 03 stands at a place: all n in the earlier form, else 6,000.
pub fn share_at(record: &[u8], n: u16, at: Place) -> usize
    ensures { result ≡ share_in tag04 «record».now n (place_no at + to_samples) }
{
    let p = at.0;
    if n <= 6000 {
        return 6000;
    }
    if 8000 < n {
        return 6000;
    }
    if !ends_within(record.len(), 180, p) {
        return 6000;
    }
    if slices::number_at::<u16>(record, Place(p + 184)) != n * 6 {
        return 6000;
    }
    n as usize
}

// The bytes of that trace.
pub fn stride_at(record: &[u8], n: u16, at: Place) -> usize
    ensures { result ≡ held_stride_in tag04 «record».now n (place_no at) }
{
    let c = share_at(record, n, at);
    let m = n as usize;
    183 + (3 * ((m + (c - 1)) / c) + m * 6)
}

// 13 against the first of n pairs from a place on that isn't canonical; under a target code 13 or 14 against the first that has one, and 11
// where the code is none. A record's form is judged without a target, or with one: in one walk, so that nothing is looked at twice.
#[tactic(auto, unfolding(crate::specs::Parts::pairs_by))]
fn check_pairs(record: &[u8], target: Option<u32>, n: usize, at: usize) -> Result<(), Refusal>
    requires { at + n * 6 ≤ length «record».now }
    ensures { checked result ≡ pairs_by target «record».now n at }
{
    match target {
        None => check_canonical(record, n, at),
        Some(code) => write_samples::check_samples(record, code, n, Place(at)),
    }
}

// A field of samples: 12, then its pairs.
#[tactic(auto, unfolding(crate::specs::Parts::field_by))]
fn check_one(record: &[u8], target: Option<u32>, count: usize, at: usize) -> Result<(), Refusal>
    requires { count < 2 ^ 16 }
    ensures { checked result ≡ field_by target «record».now count at }
{
    check_field(record, 4, count * 6, Place(at))?;
    check_pairs(record, target, count, at + 3)
}

// The same of n samples in fields of c.
fn check_fields(
    record: &[u8],
    target: Option<u32>,
    c: usize,
    n: usize,
    start: usize,
) -> Result<(), Refusal>
    requires { (0 < c) × (n < 2 ^ 16) }
    ensures { checked result ≡ fields_by target «record».now c n start }
{
    let mut at = start;
    let mut left = n;
    // A turn is a field, whose samples are fewer in the last: an index of fields would have to be turned into samples and places again.
    'fields: while 0 < left {
        let count = fields::next_count(c, left);
        check_one(record, target, count, at)?;
        at += 3 + count * 6;
        left -= count;
    }
    Ok(())
}

// The trace whose tag 03 stands at a place: 12 and 13 of its header, then its samples by its own form.
pub fn check_trace(
    record: &[u8],
    target: Option<u32>,
    n: u16,
    i: u16,
    at: Place,
) -> Result<(), Refusal>
    ensures { checked result ≡ trace_by target «record».now n i (place_no at) }
{
    check_header(record, n, i, at)?;
    let c = share_at(record, n, at);
    check_fields(record, target, c, n as usize, at.0 + 183)
}

// Whether a trace is to be looked for at a place, behind t traces: tag 03 stands there, and it is not trace 100,001.
pub fn is_trace(record: &[u8], t: usize, at: Place) -> bool
    ensures { result ≡ (ltb t most_traces && eqb (get_or «record».now (place_no at) 0) 3) }
{
    let p = at.0;
    if 100000 <= t {
        return false;
    }
    if record.len() <= p {
        return false;
    }
    record[p] == 3
}

// 12 of tag 05, behind t traces.
pub fn check_end(record: &[u8], t: usize, at: Place) -> Result<(), Refusal>
    ensures { checked result ≡ end_causes «record».now t (place_no at) }
{
    let p = at.0;
    check_field(record, 5, 4, at)?;
    if slices::number_at::<u32>(record, Place(p + 3)) as usize != t {
        return Err(Refusal {
            cause: Cause::RecordForm,
            place: at,
        });
    }
    if p + 7 < record.len() {
        return Err(Refusal {
            cause: Cause::RecordForm,
            place: Place(p + 7),
        });
    }
    Ok(())
}

// 12 and 13 from a place on, behind done traces.
pub fn check_rest(record: &[u8], n: u16, i: u16, done: usize, start: Place) -> Result<(), Refusal>
    ensures { checked result ≡ form_from «record».now n i (most_traces - done) done (place_no start) }
{
    let mut at = start.0;
    let mut t = done;
    // Whether there is a next trace, and where it ends, is read in the record: no range is known before.
    'traces: while is_trace(record, t, Place(at)) {
        check_trace(record, None, n, i, Place(at))?;
        at += stride_at(record, n, Place(at));
        t += 1;
    }
    check_end(record, t, Place(at))
}

// 12 and 13 of the first two fields.
pub fn check_front(record: &[u8]) -> Result<(), Refusal>
    ensures { checked result ≡ then (cards_causes «record».now) (binary_causes «record».now) }
{
    check_cards(record)?;
    check_binary(record)
}

// The same, for which a card text that has no 00 is looked at by words of eight. What writes exactly goes without: with the words the
// compiler has no register left for a constant of its loop over samples.
pub fn judge_front(record: &[u8]) -> Result<(), Refusal>
    ensures { checked result ≡ then (cards_causes «record».now) (binary_causes «record».now) }
{
    check_field(record, 1, 3200, Place(0))?;
    if cards::is_card_text(&record[3..3203]) {
        return check_binary(record);
    }
    check_front(record)
}

// 12 and 13.
fn check_form(record: &[u8]) -> Result<(), Refusal>
    ensures { checked result ≡ form_causes «record».now }
{
    judge_front(record)?;
    let n = binary_number(record, ByteNo(3221));
    let i = binary_number(record, ByteNo(3217));
    check_rest(record, n, i, 0, Place(3266))
}

// N, and the count of traces that the last four bytes say, which is T where the record is valid.
pub fn numbers_in(record: &[u8]) -> Numbers
    ensures { result ≡ numbers_in «record».now }
{
    let size = record.len();
    let last = if size < 4 { 0 } else { size - 4 };
    Numbers {
        samples: binary_number(record, ByteNo(3221)) as usize,
        traces: slices::number_at::<u32>(record, Place(last)) as usize,
    }
}

// Whether a record is valid, by the causes 12 and 13, and its N and T where it is.
pub fn judge_record(record: &[u8]) -> Result<Numbers, Refusal>
    ensures { judged result ≡ record_judged «record».now }
{
    check_form(record)?;
    Ok(numbers_in(record))
}
