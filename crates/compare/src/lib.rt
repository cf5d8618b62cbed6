// The order of two records (document 02, CR 9). As far as they have the same bytes from the front on, cards and binary header and then whole
// traces, the second is neither judged nor taken apart.
#![tactic(auto)]

ghost use Rattle.std.specs.Prelude.{◌≡◌, ℕ, ℤ, ◌+◌, ◌*◌, ◌^◌, ◌≤◌, ◌<◌, ◌++◌, length};
ghost use Rattle.numbers.specs.Walk.{walk};
ghost use Rattle.numbers.specs.Cause.{Fine, then};
ghost use Rattle.numbers.specs.Places.{byte_no, byte_place};
ghost use Rattle.fields.specs.Fields.{each, pair_place, fields_length};
ghost use Rattle.reel.specs.Layout.{number16};
ghost use Rattle.record.specs.Kind.{tag04};
ghost use Rattle.record.specs.Form.{binary_start, behind_trace_in, cards_causes, binary_causes, held_samples, held_interval, held_count, form_causes};
ghost use Rattle.record.specs.Held.{held_value};
ghost use Rattle.exact.specs.Value.{value_by};
ghost use Rattle.exact.specs.Order.{order_z, lex_z};
ghost use Rattle.std.specs.declared.cmp.Ordering.{Ordering};
ghost use Rattle.compare.specs.Key.{card_key, binary_key, header_key, trace_key, order_of};
ghost use Rattle.compare.specs.Answer.{which_no, compare_said, compare_outcome};
ghost use Rattle.compare.specs.Parts.{Alike, width_bytes, number_at, row_of, rows_key, rows_end, behind_traces, key_from, is_shared, Shared, run_of};

use exact::Exact;
use numbers::{ByteNo, Number, Place, Refusal};
use std::cmp::Ordering;
use value::Pair;

// Which of two records.
#[derive(Clone, Copy, Debug, PartialEq, Eq)]
pub enum Which {
    First,
    Second,
}

impl Which {
    // 1 or 2.
    pub fn number(self) -> u8
        ensures { result ≡ which_no self }
    {
        match self {
            Which::First => 1,
            Which::Second => 2,
        }
    }
}

// Which of two records is refused, and why.
#[derive(Clone, Copy, Debug, PartialEq, Eq)]
pub struct RefusedRecord {
    pub which: Which,
    pub refusal: Refusal,
}

impl RefusedRecord {
    // A refusal of the first record,
    fn first(refusal: Refusal) -> Self
        ensures { result ≡ record { which = Which.First; refusal = refusal } }
    {
        RefusedRecord {
            which: Which::First,
            refusal,
        }
    }

    // and of the second.
    fn second(refusal: Refusal) -> Self
        ensures { result ≡ record { which = Which.Second; refusal = refusal } }
    {
        RefusedRecord {
            which: Which::Second,
            refusal,
        }
    }
}

// The first traces of two records that are the same in both, and the place behind them.
#[derive(Clone, Copy)]
struct Common {
    traces: usize,
    place: usize,
}

// A place in a record.
#[derive(Clone, Copy)]
struct Spot<'a> {
    record: &'a [u8],
    place: usize,
}

// How many bytes each number of a row has.
#[derive(Clone, Copy)]
enum Width {
    Two,
    Four,
}

impl Width {
    // In numbers.
    fn bytes(self) -> usize
        ensures { result ≡ width_bytes self }
    {
        match self {
            Width::Two => 2,
            Width::Four => 4,
        }
    }
}

// Numbers of one width that stand side by side: where the first begins, counted from some place on, and how many there are.
#[derive(Clone, Copy)]
struct Row {
    offset: usize,
    width: Width,
    count: usize,
}

// The rows of the binary header, from its first byte on,
const BINARY_ROWS: [Row; 2] = [
    Row {
        offset: 0,
        width: Width::Four,
        count: 3,
    },
    Row {
        offset: 12,
        width: Width::Two,
        count: 24,
    },
];

// and of a trace header.
const HEADER_ROWS: [Row; 6] = [
    Row {
        offset: 0,
        width: Width::Four,
        count: 7,
    },
    Row {
        offset: 28,
        width: Width::Two,
        count: 4,
    },
    Row {
        offset: 36,
        width: Width::Four,
        count: 8,
    },
    Row {
        offset: 68,
        width: Width::Two,
        count: 2,
    },
    Row {
        offset: 72,
        width: Width::Four,
        count: 4,
    },
    Row {
        offset: 88,
        width: Width::Two,
        count: 46,
    },
];

// ## Numbers

// Compares n pairs of numbers, of which the closure compares one by how many stand before it: the first that differ decide.
fn first_decided<F: Fn(usize) -> Ordering>(n: usize, compare: F) -> Ordering
    requires { (k : ℕ) → k < n → F.pre compare k }
    ensures { (f g : ℕ → ℤ) → ((k : ℕ) (c : Ordering) → k < n → F.post compare k c → c ≡ order_z (f k) (g k)) → result ≡ lex_z (each f n) (each g n) }
{
    for k in 0..n {
        let order = compare(k);
        if order.is_ne() {
            return order;
        }
    }
    Ordering::Equal
}

// The pair at a place, taken apart.
fn exact_at(s: &[u8], at: usize) -> Exact
    requires { at + 6 ≤ length s.now }
    ensures { value_by result ≡ held_value s.now at }
{
    let p = Pair::of_bytes([s[at], s[at + 1], s[at + 2], s[at + 3], s[at + 4], s[at + 5]]);
    Exact::from_pair(p.e, p.m as i64)
}

// ## Rows

// The number of a row of that width at a place, with its sign.
fn number_at(s: &[u8], width: Width, at: usize) -> i32
    ensures { result ≡ number_at s.now (width_bytes width) at }
{
    match width {
        Width::Two => slices::number_at::<u16>(s, Place(at)).signed() as i32,
        Width::Four => slices::number_at::<u32>(s, Place(at)).signed(),
    }
}

// A row of numbers of each record.
fn compare_row(a: Spot, b: Spot, row: Row) -> Ordering
    requires { (a.place + (row.offset + row.count * width_bytes row.width) ≤ length a.record.now) × (b.place + (row.offset + row.count * width_bytes row.width) ≤ length b.record.now) }
    ensures { result ≡ lex_z (row_of a.entry.record.now (width_bytes row.width) row.count (a.entry.place + row.offset)) (row_of b.entry.record.now (width_bytes row.width) row.count (b.entry.place + row.offset)) }
{
    let p = a.place + row.offset;
    let q = b.place + row.offset;
    let w = row.width.bytes();
    first_decided(row.count, |k| {
        number_at(a.record, row.width, p + k * w).cmp(&number_at(b.record, row.width, q + k * w))
    })
}

// Several rows, one after the other.
fn compare_rows(a: Spot, b: Spot, rows: &[Row]) -> Ordering
    requires { (a.place + rows_end rows.now ≤ length a.record.now) × (b.place + rows_end rows.now ≤ length b.record.now) }
    ensures { result ≡ lex_z (rows_key a.entry.record.now a.entry.place rows.now) (rows_key b.entry.record.now b.entry.place rows.now) }
{
    for row in rows {
        let order = compare_row(a, b, *row);
        if order.is_ne() {
            return order;
        }
    }
    Ordering::Equal
}

// n samples that stand side by side in each record.
fn compare_samples(a: Spot, b: Spot, n: usize) -> Ordering
    requires { (a.place + n * 6 ≤ length a.record.now) × (b.place + n * 6 ≤ length b.record.now) }
    ensures { result ≡ lex_z (walk (held_value a.entry.record.now) 6 n a.entry.place) (walk (held_value b.entry.record.now) 6 n b.entry.place) }
{
    first_decided(n, |k| {
        exact_at(a.record, a.place + k * 6).cmp_value(exact_at(b.record, b.place + k * 6))
    })
}

// The same. Where their bytes are the same, so are they: these are looked at first.
fn compare_run(a: Spot, b: Spot, n: usize) -> Ordering
    requires { (a.place + n * 6 ≤ length a.record.now) × (b.place + n * 6 ≤ length b.record.now) }
    ensures { result ≡ lex_z (walk (held_value a.entry.record.now) 6 n a.entry.place) (walk (held_value b.entry.record.now) 6 n b.entry.place) }
{
    let e = a.place + n * 6;
    let f = b.place + n * 6;
    if a.record[a.place..e] == b.record[b.place..f] {
        return Ordering::Equal;
    }
    compare_samples(a, b, n)
}

// ## Headers and traces

// Two trace headers.
fn compare_headers(a: Spot, b: Spot) -> Ordering
    requires { (a.place + 180 ≤ length a.record.now) × (b.place + 180 ≤ length b.record.now) }
    ensures { result ≡ lex_z (header_key a.entry.record.now a.entry.place) (header_key b.entry.record.now b.entry.place) }
{
    compare_rows(a, b, &HEADER_ROWS)
}

// How many samples from sample j on stand side by side in fields of c and in fields of d, of n in all.
fn run_of(c: usize, d: usize, n: usize, j: usize) -> usize
    requires { (0 < c) × (0 < d) × (j ≤ n) }
    ensures { result ≡ run_of c d n j }
{
    fields::next_count(c - j % c, fields::next_count(d - j % d, n - j))
}

// The place of sample j in fields of c, the first of which stands at a place.
fn place_of(at: usize, c: usize, j: usize) -> usize
    requires { (0 < c) × (pair_place 6 c at j < 2 ^ 64) }
    ensures { result ≡ pair_place 6 c at j }
{
    at + 3 + j * 6 + 3 * (j / c)
}

// n samples, in fields of c in the one record and in fields of d in the other.
fn compare_fields(a: Spot, c: usize, b: Spot, d: usize, n: usize) -> Ordering
    requires { (0 < c) × (0 < d) × (n < 2 ^ 16) × (a.place + fields_length 6 c n ≤ length a.record.now) × (b.place + fields_length 6 d n ≤ length b.record.now) }
    ensures { result ≡ lex_z (each (λ j. held_value a.entry.record.now (pair_place 6 c a.entry.place j)) n) (each (λ j. held_value b.entry.record.now (pair_place 6 d b.entry.place j)) n) }
{
    let mut j = 0;
    // No `for` steps from run to run: each has its own length.
    while j < n {
        let m = run_of(c, d, n, j);
        let order = compare_run(
            Spot {
                place: place_of(a.place, c, j),
                ..a
            },
            Spot {
                place: place_of(b.place, d, j),
                ..b
            },
            m,
        );
        if order.is_ne() {
            return order;
        }
        j += m;
    }
    Ordering::Equal
}

// Two traces of n samples, each by its own form.
fn compare_trace(a: Spot, b: Spot, n: u16) -> Ordering
    requires { (behind_trace_in tag04 a.record.now n a.place ≤ length a.record.now) × (behind_trace_in tag04 b.record.now n b.place ≤ length b.record.now) }
    ensures { result ≡ lex_z (trace_key a.entry.record.now n a.entry.place) (trace_key b.entry.record.now n b.entry.place) }
{
    let order = compare_headers(
        Spot {
            place: a.place + 3,
            ..a
        },
        Spot {
            place: b.place + 3,
            ..b
        },
    );
    if order.is_ne() {
        return order;
    }
    let c = record::share_at(a.record, n, Place(a.place));
    let d = record::share_at(b.record, n, Place(b.place));
    compare_fields(
        Spot {
            place: a.place + 183,
            ..a
        },
        c,
        Spot {
            place: b.place + 183,
            ..b
        },
        d,
        n as usize,
    )
}

// s traces of the one record and t of the other, each of n samples. Where they are the same as far as they go, the record whose traces end
// first is the lesser.
fn compare_traces(a: Spot, s: usize, b: Spot, t: usize, n: u16) -> Ordering
    requires { (behind_traces a.record.now n s a.place ≤ length a.record.now) × (behind_traces b.record.now n t b.place ≤ length b.record.now) }
    ensures { result ≡ lex_z (key_from a.entry.record.now n s a.entry.place) (key_from b.entry.record.now n t b.entry.place) }
{
    let mut i = a.place;
    let mut j = b.place;
    for _ in 0..s.min(t) {
        let order = compare_trace(Spot { place: i, ..a }, Spot { place: j, ..b }, n);
        if order.is_ne() {
            return order;
        }
        i += record::stride_at(a.record, n, Place(i));
        j += record::stride_at(b.record, n, Place(j));
    }
    s.cmp(&t)
}

// ## Records that begin with other bytes

// The number in a field of the binary header of a record.
fn binary_number(s: &[u8], b: ByteNo) -> u16
    requires { 1 ≤ byte_no b }
    ensures { result ≡ number16 s.now (byte_place binary_start (byte_no b)) }
{
    slices::number_at::<u16>(s, places::field_at(Place(6), b))
}

// What stands before the traces of two records: the card bytes, then the binary numbers.
fn compare_fronts(a: &[u8], b: &[u8]) -> Ordering
    requires { (3266 ≤ length a.now) × (3266 ≤ length b.now) }
    ensures { result ≡ lex_z (card_key a.now ++ binary_key a.now) (card_key b.now ++ binary_key b.now) }
{
    let cards = a[3..3203].cmp(&b[3..3203]);
    if cards.is_ne() {
        return cards;
    }
    compare_rows(
        Spot {
            record: a,
            place: 3206,
        },
        Spot {
            record: b,
            place: 3206,
        },
        &BINARY_ROWS,
    )
}

// Two valid records of s and t traces.
fn compare_valid(a: &[u8], s: usize, b: &[u8], t: usize) -> Ordering
    requires { (form_causes a.now ≡ Fine) × (form_causes b.now ≡ Fine) × (s ≡ held_count a.now (held_samples a.now)) × (t ≡ held_count b.now (held_samples b.now)) }
    ensures { result ≡ order_of a.now b.now }
{
    let order = compare_fronts(a, b);
    if order.is_ne() {
        return order;
    }
    let n = binary_number(a, ByteNo(3221));
    compare_traces(
        Spot {
            record: a,
            place: 3266,
        },
        s,
        Spot {
            record: b,
            place: 3266,
        },
        t,
        n,
    )
}

// Two records, each judged by itself.
fn compare_apart(a: &[u8], b: &[u8]) -> Result<Ordering, RefusedRecord>
    ensures { compare_said result ≡ compare_outcome a.now b.now }
{
    let first = record::judge_record(a).map_err(RefusedRecord::first)?;
    let second = record::judge_record(b).map_err(RefusedRecord::second)?;
    Ok(compare_valid(a, first.traces, b, second.traces))
}

// ## Records that begin with the same bytes

// Whether a trace is to be looked for behind those that are shared, is of the right form in the first record, and has the same bytes in the
// second.
fn is_shared(a: &[u8], b: &[u8], n: u16, i: u16, shared: Common) -> bool
    requires { shared.place ≤ length b.now }
    ensures { result ≡ is_shared a.now b.now n i shared.traces shared.place }
{
    let at = shared.place;
    if !record::is_trace(a, shared.traces, Place(at)) {
        return false;
    }
    if record::check_trace(a, None, n, i, Place(at)).is_err() {
        return false;
    }
    let w = record::stride_at(a, n, Place(at));
    if b.len() - at < w {
        return false;
    }
    let e = at + w;
    a[at..e] == b[at..e]
}

// The first traces that two records of n samples and the interval i have in common, of which the first record's are of the right form.
fn common_traces(a: &[u8], b: &[u8], n: u16, i: u16) -> Common
    requires { (1 ≤ n) × (3266 ≤ length a.now) × (3266 ≤ length b.now) × Alike a.now b.now 3266 }
    ensures { Shared a.now b.now n i result.traces result.place }
{
    let mut shared = Common {
        traces: 0,
        place: 3266,
    };
    // No `for` steps from trace to trace: where the next trace stands is read in this one.
    while is_shared(a, b, n, i, shared) {
        shared.place += record::stride_at(a, n, Place(shared.place));
        shared.traces += 1;
    }
    shared
}

// Two valid records from the place on where the first traces end which they have in common.
fn compare_rest(a: &[u8], b: &[u8], n: u16, i: u16, shared: Common) -> Ordering
    requires { (form_causes a.now ≡ Fine) × (form_causes b.now ≡ Fine) × (n ≡ held_samples a.now) × Alike a.now b.now 3266 × Shared a.now b.now n i shared.traces shared.place }
    ensures { result ≡ order_of a.now b.now }
{
    let x = record::numbers_in(a).traces;
    let y = record::numbers_in(b).traces;
    let Common { traces, place } = shared;
    compare_traces(
        Spot { record: a, place },
        x - traces,
        Spot { record: b, place },
        y - traces,
        n,
    )
}

// Two records with the same first two fields, which are of the right form: n samples a trace and the interval i.
fn compare_bodies(a: &[u8], b: &[u8], n: u16, i: u16) -> Result<Ordering, RefusedRecord>
    requires { (then (cards_causes a.now) (binary_causes a.now) ≡ Fine) × (n ≡ held_samples a.now) × (i ≡ held_interval a.now) × (3266 ≤ length b.now) × Alike a.now b.now 3266 }
    ensures { compare_said result ≡ compare_outcome a.now b.now }
{
    let shared = common_traces(a, b, n, i);
    let t = shared.traces;
    let at = Place(shared.place);
    record::check_rest(a, n, i, t, at).map_err(RefusedRecord::first)?;
    record::check_rest(b, n, i, t, at).map_err(RefusedRecord::second)?;
    Ok(compare_rest(a, b, n, i, shared))
}

// Two records with the same bytes up to their traces.
fn compare_alike(a: &[u8], b: &[u8]) -> Result<Ordering, RefusedRecord>
    requires { (3266 ≤ length a.now) × (3266 ≤ length b.now) × Alike a.now b.now 3266 }
    ensures { compare_said result ≡ compare_outcome a.now b.now }
{
    record::judge_front(a).map_err(RefusedRecord::first)?;
    compare_bodies(
        a,
        b,
        binary_number(a, ByteNo(3221)),
        binary_number(a, ByteNo(3217)),
    )
}

// The order of the first record to the second.
pub fn compare_records(a: &[u8], b: &[u8]) -> Result<Ordering, RefusedRecord>
    ensures { compare_said result ≡ compare_outcome a.now b.now }
{
    if 3266 <= a.len() && 3266 <= b.len() && a[..3266] == b[..3266] {
        return compare_alike(a, b);
    }
    compare_apart(a, b)
}
