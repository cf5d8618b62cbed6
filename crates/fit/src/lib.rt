// Whether a record can be written under a target code: the causes 11 to 14.
#![tactic(auto)]

ghost use Rattle.std.specs.Prelude.{◌≡◌, true, ◌-◌};
ghost use Rattle.numbers.specs.Cause.{checked, cause_no, then, Refused};
ghost use Rattle.formats.specs.Codes.{is_code};
ghost use Rattle.reel.specs.Causes.{most_traces};
ghost use Rattle.record.specs.Form.{traces_place};
ghost use Rattle.record.specs.Parts.{form_from};
ghost use Rattle.fit.specs.Target.{target_causes, fit_judged};
ghost use Rattle.record.specs.Judged.{judged};
ghost use Rattle.fit.specs.Parts.{fit_from};

use numbers::{ByteNo, Cause, Place, Refusal};
use record::Numbers;

// 12 and 13 from a trace on; where there is none, what was found at that trace, which is then a sample that doesn't fit.
fn check_later(
    record: &[u8],
    n: u16,
    i: u16,
    t: usize,
    at: usize,
    found: Refusal,
) -> Result<(), Refusal>
    ensures { checked result ≡ then (form_from «record».now n i (most_traces - t) t at) (Refused (cause_no found.cause) found.place) }
{
    record::check_rest(record, n, i, t, Place(at))?;
    Err(found)
}

// 12 and 13 of the traces and of what stands behind them, then 14. What is first found at a trace is a cause of 12 or 13, or a 14, which gives
// way to any 12 or 13 behind it.
fn check_body(record: &[u8], code: u32, n: u16, i: u16) -> Result<(), Refusal>
    requires { is_code code ≡ true }
    ensures { checked result ≡ then (form_from «record».now n i most_traces 0 traces_place) (fit_from «record».now code n most_traces traces_place) }
{
    let mut at = 3266;
    let mut t = 0;
    // Whether there is a next trace, and where it ends, is read in the record: no range is known before.
    'traces: while record::is_trace(record, t, Place(at)) {
        if let Err(found) = record::check_trace(record, Some(code), n, i, Place(at)) {
            return check_later(record, n, i, t, at, found);
        }
        at += record::stride_at(record, n, Place(at));
        t += 1;
    }
    record::check_end(record, t, Place(at))
}

// 11, then 12 and 13, then 14.
fn check_causes(record: &[u8], code: u32) -> Result<(), Refusal>
    ensures { checked result ≡ target_causes «record».now code }
{
    let refusal = Refusal {
        cause: Cause::TargetCode,
        place: Place(0),
    };
    reel::check_code(code as usize, refusal)?;
    record::check_front(record)?;
    let n = slices::number_at(record, places::field_at(Place(6), ByteNo(3221)));
    let i = slices::number_at(record, places::field_at(Place(6), ByteNo(3217)));
    check_body(record, code, n, i)
}

// Whether a record can be written under a code, by the causes 11 to 14, and its N and T where none applies.
pub fn judge_fit(record: &[u8], code: u32) -> Result<Numbers, Refusal>
    ensures { judged result ≡ fit_judged «record».now code }
{
    check_causes(record, code)?;
    Ok(record::numbers_in(record))
}
