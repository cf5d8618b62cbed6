// Writing a record as a reel, exactly or to the nearest. Two passes: in exact writing `fit::judge_fit` looks for a cause, 14 among them, in
// nearest writing `record::judge_record`; then the reel is written. Each function that writes is lent exactly the bytes that it writes.
#![tactic(auto)]

ghost use Rattle.std.specs.Prelude.{◌≡◌, Bool, true, false, not, ◌+◌, ◌*◌, ◌≤◌, ◌<◌, length};
ghost use Rattle.numbers.specs.Walk.{overwritten};
ghost use Rattle.numbers.specs.Cause.{refuse_if, then};
ghost use Rattle.numbers.specs.Places.{byte_place};
ghost use Rattle.numbers.specs.BigEndian.{bytes_of};
ghost use Rattle.formats.specs.Codes.{is_code, code_no, sample_bytes};
ghost use Rattle.reel.specs.Layout.{first_trace, stride};
ghost use Rattle.fields.specs.Fields.{fields_length};
ghost use Rattle.record.specs.Kind.{tag04};
ghost use Rattle.record.specs.Form.{behind_trace_in, traces_place, trace_place, form_causes, record_found, record_judged};
ghost use Rattle.fit.specs.Target.{fit_judged};
ghost use Rattle.record.specs.Judged.{judged, Fine};
ghost use Rattle.record.specs.Answer.{outcome, counted_outcome};
ghost use Rattle.write_reel.specs.Writing.{write_outcome};
ghost use Rattle.write_reel.specs.Nearest.{nearest_outcome};
ghost use Rattle.write_reel.specs.Copied.{zeros_for, reel_header_copied, samples_copied, samples_changed_at, fields_words, fields_changed_at, reel_trace_copied, trace_changed_at, traces_copied, traces_changed_at, reel_copied, copied_outcome};

use formats::Code;
use numbers::{ByteNo, Cause, Place, Refusal};
use record::{Counted, Numbers, Taken};

// Bytes 00, which unassigned bytes are.
#[tactic(auto, unfolding(crate::specs::Copied::zeros_for))]
fn put_zeros(out: &mut [u8])
    ensures { out.new ≡ zeros_for out.old }
{
    out.fill(0);
}

// A header: its assigned bytes, and behind them the unassigned.
fn put_header(assigned: &[u8], out: &mut [u8])
    requires { length assigned.now ≤ length out.old }
    ensures { out.new ≡ reel_header_copied (length out.old) assigned.now }
{
    let k = assigned.len();
    let e = out.len();
    slices::copy(assigned, &mut out[0..k]);
    put_zeros(&mut out[k..e]);
}

// A way of writing: what becomes of the samples of a field.
trait Way {
    ghost near: { Bool };

    // n samples whose pairs stand one behind the other; and how many changed.
    fn put_samples(record: &[u8], code: Code, n: usize, start: usize, out: &mut [u8]) -> usize
        requires { (start + n * 6 ≤ length «record».now) × (length out.old ≡ n * sample_bytes (code_no code)) }
        ensures { (result ≡ samples_changed_at near «record».now (code_no code) n start) × (out.new ≡ samples_copied near «record».now (code_no code) n start) };
}

// Exact writing, in which no sample changes.
struct Exact;

// Writing to the nearest.
struct Nearest;

impl Way for Exact {
    ghost near = { false };

    fn put_samples(record: &[u8], code: Code, n: usize, start: usize, out: &mut [u8]) -> usize {
        write_samples::write_samples(record, code.number(), n, Place(start), out);
        0
    }
}

impl Way for Nearest {
    ghost near = { true };

    fn put_samples(record: &[u8], code: Code, n: usize, start: usize, out: &mut [u8]) -> usize {
        write_samples::write_nearest(record, code.number(), n, Place(start), out)
    }
}

// The reel that is to be written: its code, N, T, the bytes of a sample, and the bytes of a trace.
#[derive(Clone, Copy)]
struct Target {
    code: Code,
    samples: u16,
    traces: usize,
    width: usize,
    size: usize,
    ghost width_is: { width ≡ sample_bytes (code_no code) },
    ghost size_is: { size ≡ stride samples width },
}

impl Target {
    // The samples of a trace, in fields of c in the record, the last with the rest; and how many of them changed.
    fn put_fields<W: Way>(self, record: &[u8], c: usize, start: usize, out: &mut [u8]) -> usize
        requires { (0 < c) × (start + fields_length 6 c self.samples ≤ length «record».now) × (length out.old ≡ self.samples * self.width) }
        ensures { (result ≡ fields_changed_at W.near «record».now (code_no self.code) c self.samples start) × (out.new ≡ fields_words W.near «record».now (code_no self.code) c self.samples start) }
    {
        let n = self.samples as usize;
        let mut at = start;
        let mut changed = 0;
        for done in (0..n).step_by(c) {
            let count = fields::next_count(c, n - done);
            let o = done * self.width;
            changed += W::put_samples(
                record,
                self.code,
                count,
                at + 3,
                &mut out[o..o + count * self.width],
            );
            at += 3 + count * 6;
        }
        changed
    }

    // A trace: its 71 fields, the unassigned bytes of its header, and its samples; and how many of these changed.
    fn put_trace<W: Way>(self, record: &[u8], at: usize, out: &mut [u8]) -> usize
        requires { (behind_trace_in tag04 «record».now self.samples at ≤ length «record».now) × (length out.old ≡ self.size) }
        ensures { (result ≡ trace_changed_at W.near «record».now (code_no self.code) self.samples at) × (out.new ≡ reel_trace_copied W.near «record».now (code_no self.code) self.samples at) }
    {
        let e = out.len();
        put_header(&record[at + 3..at + 183], &mut out[0..240]);
        let c = record::share_at(record, self.samples, Place(at));
        self.put_fields::<W>(record, c, at + 183, &mut out[240..e])
    }

    // The traces, one behind the other; and how many of their samples changed.
    fn put_traces<W: Way>(self, record: &[u8], out: &mut [u8]) -> usize
        requires { (trace_place «record».now self.samples self.traces ≤ length «record».now) × (length out.old ≡ self.traces * self.size) }
        ensures { (result ≡ traces_changed_at W.near «record».now (code_no self.code) self.samples self.traces 0) × (out.new ≡ traces_copied W.near «record».now (code_no self.code) self.samples self.traces 0) }
    {
        let mut at = 3266;
        let mut count = 0;
        for j in 0..self.traces {
            let o = j * self.size;
            count += self.put_trace::<W>(record, at, &mut out[o..o + self.size]);
            at += record::stride_at(record, self.samples, Place(at));
        }
        count
    }

    // The reel, which fills out; and how many samples changed.
    fn put_reel<W: Way>(self, record: &[u8], out: &mut [u8]) -> usize
        requires { (traces_place ≤ length «record».now) × (trace_place «record».now self.samples self.traces ≤ length «record».now) × (length out.old ≡ first_trace + self.traces * self.size) }
        ensures { (result ≡ traces_changed_at W.near «record».now (code_no self.code) self.samples self.traces 0) × (out.new ≡ reel_copied W.near «record».now (code_no self.code) self.samples self.traces) }
    {
        let e = out.len();
        slices::copy(&record[3..3203], &mut out[0..3200]);
        put_header(&record[3206..3266], &mut out[3200..3600]);
        let count = self.put_traces::<W>(record, &mut out[3600..e]);
        put_code(self.code, out);
        count
    }
}

// A format code in its field of a reel.
fn put_code(code: Code, out: &mut [u8])
    requires { first_trace ≤ length out.old }
    ensures { out.new ≡ overwritten out.old (byte_place 0 3225) (bytes_of 2 (code_no code)) }
{
    let p = places::field_at(Place(0), ByteNo(3225)).0;
    slices::put(code.number() as u16, &mut out[p..p + 2]);
}

// A valid record under one of the codes, by its N and T: its reel, or 10 where the output is too short.
fn put_checked<W: Way>(
    record: &[u8],
    code: u32,
    own: Numbers,
    reel: &mut [u8],
) -> Result<Counted, Refusal>
    requires { (is_code code ≡ true) × (record_judged «record».now ≡ Fine own.samples own.traces) }
    ensures { counted_outcome result reel.new ≡ copied_outcome W.near «record».now code own.samples own.traces reel.old }
{
    let code = Code::of(code as usize).unwrap();
    let width = code.width();
    let size = 240 + own.samples * width;
    let length = 3600 + own.traces * size;
    if reel.len() < length {
        return Err(Refusal {
            cause: Cause::ShortOutput,
            place: Place(length),
        });
    }
    let target = Target {
        code,
        samples: own.samples as u16,
        traces: own.traces,
        width,
        size,
    };
    let count = target.put_reel::<W>(record, &mut reel[..length]);
    Ok(Counted {
        traces: own.traces,
        samples: own.samples,
        length,
        count,
    })
}

// A record that can be written under the code, by its N and T.
fn write_checked(record: &[u8], code: u32, own: Numbers, reel: &mut [u8]) -> Result<Taken, Refusal>
    requires { fit_judged «record».now code ≡ Fine own.samples own.traces }
    ensures { outcome result reel.new ≡ write_outcome «record».now code reel.old }
{
    let c = put_checked::<Exact>(record, code, own, reel)?;
    Ok(Taken {
        traces: c.traces,
        samples: c.samples,
        length: c.length,
    })
}

// Writes a record under a target code as a reel, into the front of a reel buffer.
#[tactic(auto, using(crate::proofs::WriteLaws::write_refused))]
pub fn write_reel(record: &[u8], code: u32, reel: &mut [u8]) -> Result<Taken, Refusal>
    ensures { outcome result reel.new ≡ write_outcome «record».now code reel.old }
{
    let own = fit::judge_fit(record, code)?;
    write_checked(record, code, own, reel)
}

// Whether the code is one of the codes and the record valid, by the causes 11, 12 and 13, and its N and T where none applies.
#[tactic(auto, using(crate::proofs::WriteLaws::behind_code))]
fn judge_target_and_form(record: &[u8], code: u32) -> Result<Numbers, Refusal>
    ensures { judged result ≡ record_found «record».now (then (refuse_if (not (is_code code)) 11 0) (form_causes «record».now)) }
{
    let refusal = Refusal {
        cause: Cause::TargetCode,
        place: Place(0),
    };
    reel::check_code(code as usize, refusal)?;
    record::judge_record(record)
}

// Writes a record under a target code as a reel, each sample as the nearest value of the code, into the front of a reel buffer, and counts
// the samples whose value changed.
pub fn write_nearest(record: &[u8], code: u32, reel: &mut [u8]) -> Result<Counted, Refusal>
    ensures { counted_outcome result reel.new ≡ nearest_outcome «record».now code reel.old }
{
    let own = judge_target_and_form(record, code)?;
    put_checked::<Nearest>(record, code, own, reel)
}
