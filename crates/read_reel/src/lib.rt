// Reading a whole reel, plain or Eagle, into a record. Two passes: `reel` looks for a cause against the reel, and then the record is
// written. Each function that writes is lent exactly the bytes that it writes.
#![tactic(auto)]

ghost use Rattle.std.specs.Prelude.{◌≡◌, ◌++◌, map, ◌+◌, ◌*◌, ◌^◌, ◌≤◌, ◌<◌, length, Ok};
ghost use Rattle.numbers.specs.Walk.{flat, overwritten};
ghost use Rattle.numbers.specs.Places.{place_no};
ghost use Rattle.numbers.specs.BigEndian.{bytes_of};
ghost use Rattle.reel.specs.Layout.{card_bytes, first_trace, trace_header, stride};
ghost use Rattle.reel.specs.Causes.{most_traces, judged_by};
ghost use Rattle.reel.specs.Judged.{judged};
ghost use Rattle.reel.specs.Meaning.{card_text_by};
ghost use Rattle.reel.specs.declared.Layout.TheVariants.{Eagle};
ghost use Rattle.reel.specs.NotNormal.{not_normal_in, not_normal_among};
ghost use Rattle.read_samples.specs.Samples.{places};
ghost use Rattle.fields.specs.Fields.{fields_length};
ghost use Rattle.record.specs.Form.{traces_place};
ghost use Rattle.record.specs.Record.{field_samples, trace_length, record_length};
ghost use Rattle.record.specs.Answer.{counted_outcome};
ghost use Rattle.read_reel.specs.Reading.{read_outcome, read_outcome_by};
ghost use Rattle.read_reel.specs.Copied.{tag_bytes, fields_copied, head_copied, field_copied, samples_copied, record_trace_copied, record_copied};

use numbers::{ByteNo, Cause, Place, Refusal};
use record::Counted;
use reel::{Layout, Numbers};

// A field's tag, and the length of its content.
fn put_tag(tag: u8, size: u16, out: &mut [u8])
    requires { length out.old ≡ 3 }
    ensures { out.new ≡ tag_bytes tag size }
{
    out[0] = tag;
    slices::put(size, &mut out[1..3]);
}

// Stores a number over the two bytes at a place.
fn put_over(n: u16, at: Place, out: &mut [u8])
    requires { place_no at + 2 ≤ length out.old }
    ensures { out.new ≡ overwritten out.old (place_no at) (bytes_of 2 n) }
{
    let p = at.0;
    slices::put(n, &mut out[p..p + 2]);
}

// The bytes of a trace of n samples in a record: 183 of tag 03, then its fields of 6,000 samples.
fn trace_length(n: usize) -> usize
    requires { n < 2 ^ 16 }
    ensures { result ≡ trace_length n }
{
    183 + (3 * n.div_ceil(6000) + n * 6)
}

// A field of samples, behind its tag.
fn put_field(reel: &[u8], own: Numbers, count: usize, at: usize, out: &mut [u8])
    requires { (count ≤ field_samples) × (at + count * own.width ≤ length reel.now) × (length out.old ≡ 3 + count * 6) }
    ensures { out.new ≡ field_copied reel.now own.code count at }
{
    put_tag(4, (count * 6) as u16, &mut out[0..3]);
    read_samples::read_samples(reel, own.code, count, Place(at), &mut out[3..]);
}

// The samples of a trace, from a place on, in fields of 6,000, the last with the rest.
fn put_samples(reel: &[u8], own: Numbers, start: usize, out: &mut [u8])
    requires { (start + own.samples * own.width ≤ length reel.now) × (length out.old ≡ fields_length 6 field_samples own.samples) }
    ensures { out.new ≡ samples_copied reel.now own.code own.samples start }
{
    let most = 6000;
    for f in 0..own.samples.div_ceil(most) {
        let done = f * most;
        let count = fields::next_count(most, own.samples - done);
        let o = f * (3 + most * 6);
        put_field(
            reel,
            own,
            count,
            start + done * own.width,
            &mut out[o..o + (3 + count * 6)],
        );
    }
}

// A trace: its header and its samples, each behind its tag. Says how many of its words are not normal, which are counted behind their
// reading, when the cache has them.
fn put_trace(reel: &[u8], own: Numbers, at: usize, out: &mut [u8]) -> usize
    requires { (at + stride own.samples own.width ≤ length reel.now) × (length out.old ≡ trace_length own.samples) }
    ensures { (result ≡ not_normal_in reel.now own.code own.samples (at + trace_header)) × (out.new ≡ record_trace_copied reel.now own.code own.samples own.interval at) }
{
    let n = own.samples as u16;
    let i = own.interval as u16;
    put_tag(3, 180, &mut out[0..3]);
    headers::read_header(reel, n, i, Place(at), &mut out[3..183]);
    put_samples(reel, own, at + 240, &mut out[183..]);
    count_words::count_words(reel, own.code, own.samples, Place(at + 240))
}

// Looks at a byte in every 128 of a trailer, and gives 0. Behind a trailer that nobody looks at, the processor's fetching ahead along the reel
// begins anew with each trace, which takes as long as a hundred samples. No byte is as large as the reel is long; the compiler doesn't know
// that, and so leaves the bytes in. They are joined bit by bit, since it makes branches of their maximum.
fn look_over(reel: &[u8], from: usize, size: usize) -> usize
    requires { (from + size ≤ length reel.now) × (first_trace ≤ length reel.now) }
    ensures { result ≡ 0 }
{
    if size < 960 {
        return 0;
    }
    let mut seen = 0;
    for i in 0..8 {
        seen |= reel[from + i * 128];
    }
    if reel.len() <= seen as usize { 1 } else { 0 }
}

// The traces, one behind the other on the reel and in the record, and how many of their words are not normal. The last has a call of its own:
// with one call in all, the compiler makes one function of this loop and of what it does with a trace, and reads code 3 by a tenth slower.
fn put_traces(reel: &[u8], own: Numbers, out: &mut [u8]) -> usize
    requires { (first_trace + own.traces * own.stride ≤ length reel.now) × (length out.old ≡ own.traces * trace_length own.samples) }
    ensures { (result ≡ not_normal_among reel.now own.code own.samples own.stride own.traces first_trace) × (out.new ≡ flat (map (record_trace_copied reel.now own.code own.samples own.interval) (places own.stride own.traces first_trace))) }
{
    let Some(last) = own.traces.checked_sub(1) else {
        return 0;
    };
    let m = trace_length(own.samples);
    let whole = 240 + own.samples * own.width;
    let mut count = 0;
    for t in 0..last {
        let at = 3600 + t * own.stride;
        let o = t * m;
        count += put_trace(reel, own, at, &mut out[o..o + m]);
        count += look_over(reel, at + whole, own.stride - whole);
    }
    let end = 3600 + last * own.stride;
    count + put_trace(reel, own, end, &mut out[last * m..])
}

// The count of traces behind its tag.
fn put_count(t: u32, out: &mut [u8])
    requires { length out.old ≡ 7 }
    ensures { out.new ≡ tag_bytes 5 4 ++ bytes_of 4 t }
{
    put_tag(5, 4, &mut out[0..3]);
    slices::put(t, &mut out[3..7]);
}

// The card text: on an Eagle reel columns 79 and 80 of card 40, which hold a check, are blanks.
fn put_text(layout: Layout, reel: &[u8], out: &mut [u8])
    requires { (first_trace ≤ length reel.now) × (length out.old ≡ card_bytes) }
    ensures { out.new ≡ card_text_by layout reel.now }
{
    cards::put_cards(&reel[0..3200], out);
    match layout {
        Layout::Plain => {}
        Layout::Eagle => put_over(0x4040, Place(3198), out),
    }
}

// The card text and the binary header's 27 fields, each behind its tag.
fn put_fields(layout: Layout, reel: &[u8], out: &mut [u8])
    requires { (first_trace ≤ length reel.now) × (length out.old ≡ traces_place) }
    ensures { out.new ≡ fields_copied layout reel.now }
{
    put_tag(1, 3200, &mut out[0..3]);
    put_text(layout, reel, &mut out[3..3203]);
    put_tag(2, 60, &mut out[3203..3206]);
    slices::copy(&reel[3200..3260], &mut out[3206..3266]);
}

// The same, the format code replaced by 0. Byte number 1 would stand at the place 6 of the record.
fn put_head(layout: Layout, reel: &[u8], out: &mut [u8])
    requires { (first_trace ≤ length reel.now) × (length out.old ≡ traces_place) }
    ensures { out.new ≡ head_copied layout reel.now }
{
    put_fields(layout, reel, out);
    put_over(0, places::field_at(Place(6), ByteNo(3225)), out);
}

// The record, which fills out, and how many of the reel's words are not normal.
fn put_record(reel: &[u8], own: Numbers, out: &mut [u8]) -> usize
    requires { (own.traces ≤ most_traces) × (first_trace + own.traces * own.stride ≤ length reel.now) × (length out.old ≡ record_length own.traces own.samples) }
    ensures { (result ≡ not_normal_among reel.now own.code own.samples own.stride own.traces first_trace) × (out.new ≡ record_copied own.layout reel.now own.code own.samples own.interval own.stride own.traces) }
{
    let e = out.len() - 7;
    put_head(own.layout, reel, &mut out[0..3266]);
    let count = put_traces(reel, own, &mut out[3266..e]);
    put_count(own.traces as u32, &mut out[e..]);
    count
}

// A reel to which no cause of 1 to 9, 18, 19 and 20 applies, by its own numbers.
fn read_checked(reel: &[u8], own: Numbers, out: &mut [u8]) -> Result<Counted, Refusal>
    requires { judged (Ok own) ≡ judged_by own.layout reel.now }
    ensures { counted_outcome result out.new ≡ read_outcome_by own.layout reel.now out.old }
{
    let length = 3273 + own.traces * trace_length(own.samples);
    if out.len() < length {
        return Err(Refusal {
            cause: Cause::ShortOutput,
            place: Place(length),
        });
    }
    let count = put_record(reel, own, &mut out[..length]);
    Ok(Counted {
        traces: own.traces,
        samples: own.samples,
        length,
        count,
    })
}

// Reads a plain reel into the front of a record buffer.
pub fn read_reel(reel: &[u8], out: &mut [u8]) -> Result<Counted, Refusal>
    ensures { counted_outcome result out.new ≡ read_outcome reel.now out.old }
{
    read_checked(reel, reel::judge_reel(reel)?, out)
}

// Reads an Eagle reel into the front of a record buffer. A call of its own, as C has one for each layout.
pub fn read_eagle(reel: &[u8], out: &mut [u8]) -> Result<Counted, Refusal>
    ensures { counted_outcome result out.new ≡ read_outcome_by Eagle reel.now out.old }
{
    read_checked(reel, reel::judge_eagle(reel)?, out)
}
