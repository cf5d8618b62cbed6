// A reel's causes, 1 to 9, 18, 19 and 20, and its own numbers: of a plain reel, and of an Eagle reel, whose traces end with a trailer.
#![tactic(auto)]

ghost use Rattle.std.specs.Prelude.{◌≡◌, ◌+◌, ◌-◌, ◌*◌, ◌/◌, ◌%◌, ◌^◌, ◌<◌, ◌≤◌, eqb, length, not, Ok, Err, IfOk};
ghost use Rattle.numbers.specs.Walk.{walk, pick};
ghost use Rattle.numbers.specs.Cause.{checked, cause_no, refuse_if, then, first_of};
ghost use Rattle.numbers.specs.Places.{place_no, byte_no, byte_place};
ghost use Rattle.formats.specs.Codes.{is_code, sample_bytes};
ghost use Rattle.reel.specs.Layout.{first_trace, trace_header, stride, number16, trailer_bytes, stride_in};
ghost use Rattle.reel.specs.Causes.{within, neither, allows, limit_causes_by, size_causes, scalar_cause, word_cause, trace_causes, trailer_cause, trace_causes_by, judged_by, reel_judged};
ghost use Rattle.reel.specs.declared.Layout.TheVariants.{Eagle};
ghost use Rattle.reel.specs.Judged.{judged};
ghost use Rattle.reel.specs.Parts.{trace_header_causes};

mod own_numbers;

use numbers::{ByteNo, Cause, Number, Place, Refusal};
pub use own_numbers::Numbers;

// The layouts of reels: plain, that of 1975; and Eagle, that of source document 004 (document 02, CR 7), where a trailer of 960 bytes stands
// behind the samples of each trace, and columns 79 and 80 of card 40 hold a check. One reader reads both: a match in the four places where they
// differ is plainer than a type for each, over which all would be generic.
#[derive(Clone, Copy, Debug, PartialEq, Eq)]
pub enum Layout {
    Plain,
    Eagle,
}

// The number in a field of the binary header.
fn binary_number(reel: &[u8], b: ByteNo) -> usize
    requires { 1 ≤ byte_no b }
    ensures is { result ≡ number16 reel.now (byte_place 0 (byte_no b)) }
    ensures most { result < 2 ^ 16 }
{
    slices::number_at::<u16>(reel, places::field_at(Place(0), b)) as usize
}

// A refusal where a number is outside its limits: the one that was handed in, be it by a cause or by any other number.
pub fn check_limits<E: Drop>(n: usize, least: usize, most: usize, refusal: E) -> Result<(), E>
    ensures { result ≡ pick (within least most n) (Ok tt) (Err refusal) }
{
    if n < least {
        return Err(refusal);
    }
    if most < n {
        return Err(refusal);
    }
    Ok(())
}

// A cause that applies where a trace's own number, by the byte number where it begins, is neither 0 nor the reel's.
fn check_own(reel: &[u8], at: usize, b: ByteNo, own: usize, cause: Cause) -> Result<(), Refusal>
    requires { (1 ≤ byte_no b) × (at + byte_no b < length reel.now) }
    ensures { checked result ≡ refuse_if (neither (number16 reel.now (byte_place at (byte_no b))) own) (cause_no cause) (byte_place at (byte_no b)) }
{
    let place = places::field_at(Place(at), b);
    let n = slices::number_at::<u16>(reel, place) as usize;
    if n == 0 {
        return Ok(());
    }
    if n == own {
        return Ok(());
    }
    Err(Refusal { cause, place })
}

// 18: a scalar of the trace at a place, by the byte number where it begins, that isn't allowed.
fn check_scalar(reel: &[u8], at: usize, b: ByteNo) -> Result<(), Refusal>
    requires { (1 ≤ byte_no b) × (at + byte_no b < length reel.now) }
    ensures { checked result ≡ scalar_cause reel.now at (record { begins = byte_no b; width = 2 }) }
{
    let place = places::field_at(Place(at), b);
    let scalar = slices::number_at::<u16>(reel, place).signed();
    if scalars::is_allowed(scalar) {
        return Ok(());
    }
    Err(Refusal {
        cause: Cause::Scalar,
        place,
    })
}

// A refusal where a number is no code: the one that was handed in, by the cause 2 for a reel's, 11 for a target, or by any other number.
pub fn check_code<E: Drop>(code: usize, refusal: E) -> Result<(), E>
    ensures { result ≡ pick (is_code code) (Ok tt) (Err refusal) }
{
    if formats::is_code(code) {
        return Ok(());
    }
    Err(refusal)
}

// 2: the format code of an Eagle reel isn't 1.
fn check_one(code: usize, place: Place) -> Result<(), Refusal>
    ensures { checked result ≡ refuse_if (not (eqb code 1)) 2 (place_no place) }
{
    if code == 1 {
        return Ok(());
    }
    Err(Refusal {
        cause: Cause::FormatCode,
        place,
    })
}

// 2: the format code isn't one of the layout's.
fn check_allowed(layout: Layout, code: usize) -> Result<(), Refusal>
    ensures { checked result ≡ refuse_if (not (allows layout code)) 2 (byte_place 0 3225) }
{
    let place = places::field_at(Place(0), ByteNo(3225));
    match layout {
        Layout::Plain => check_code(
            code,
            Refusal {
                cause: Cause::FormatCode,
                place,
            },
        ),
        Layout::Eagle => check_one(code, place),
    }
}

// 2, 3 and 4: the format code, N and the interval.
fn check_header(layout: Layout, code: usize, n: usize, i: usize) -> Result<(), Refusal>
    ensures { checked result ≡ limit_causes_by layout code n i }
{
    check_allowed(layout, code)?;
    check_limits(
        n,
        1,
        32767,
        Refusal {
            cause: Cause::SampleCount,
            place: places::field_at(Place(0), ByteNo(3221)),
        },
    )?;
    check_limits(
        i,
        1,
        32767,
        Refusal {
            cause: Cause::Interval,
            place: places::field_at(Place(0), ByteNo(3217)),
        },
    )
}

// 5 and 6: the bytes behind the last whole trace, and the count of traces.
fn check_size(size: usize, w: usize, t: usize, over: usize) -> Result<(), Refusal>
    requires { (over ≤ size) × (w ≤ 140000) }
    ensures { checked result ≡ size_causes size w t over }
{
    if 0 < over {
        return Err(Refusal {
            cause: Cause::BytesLeft,
            place: Place(size - over),
        });
    }
    if 100000 < t {
        return Err(Refusal {
            cause: Cause::TooManyTraces,
            place: Place(3600 + 100000 * w),
        });
    }
    Ok(())
}

// 9 and 19: the first of n words from start on that is refused under code 4 or 5, which have words without a value.
fn check_words(reel: &[u8], code: u32, n: usize, start: usize) -> Result<(), Refusal>
    requires { (4 ≤ code) × (code < 6) × (start + n * 4 ≤ length reel.now) }
    ensures { checked result ≡ first_of (walk (word_cause reel.now code) 4 n start) }
{
    for i in 0..n {
        let at = start + i * 4;
        let word = sample::read(code, [reel[at], reel[at + 1], reel[at + 2], reel[at + 3]]);
        let Err(cause) = word else {
            continue;
        };
        return Err(Refusal {
            cause,
            place: Place(at),
        });
    }
    Ok(())
}

// 7, 8 and 18, of the trace at a place.
#[tactic(auto, unfolding(crate::specs::Parts::trace_header_causes))]
fn check_head(reel: &[u8], n: usize, i: usize, at: usize) -> Result<(), Refusal>
    requires { at + trace_header ≤ length reel.now }
    ensures { checked result ≡ trace_header_causes reel.now n i at }
{
    check_own(reel, at, ByteNo(115), n, Cause::TraceSamples)?;
    check_own(reel, at, ByteNo(117), i, Cause::TraceInterval)?;
    check_scalar(reel, at, ByteNo(69))?;
    check_scalar(reel, at, ByteNo(71))
}

// 20: the last two bytes of the trailer at a place differ from FFFF.
fn check_trailer(reel: &[u8], at: usize) -> Result<(), Refusal>
    requires { at + trailer_bytes ≤ length reel.now }
    ensures { checked result ≡ trailer_cause reel.now at }
{
    let place = Place(at + 958);
    if slices::number_at::<u16>(reel, place) == 0xFFFF {
        return Ok(());
    }
    Err(Refusal {
        cause: Cause::Trailer,
        place,
    })
}

impl Numbers {
    // 7, 8, 18, and 9 or 19, of the trace at a place. Only words of codes 4 and 5 can be refused.
    fn check_trace(self, reel: &[u8], at: usize) -> Result<(), Refusal>
        requires { at + stride self.samples self.width ≤ length reel.now }
        ensures { checked result ≡ trace_causes reel.now self.code self.samples self.interval at }
    {
        check_head(reel, self.samples, self.interval, at)?;
        if self.code < 4 {
            return Ok(());
        }
        if self.code < 6 {
            return check_words(reel, self.code as u32, self.samples, at + 240);
        }
        Ok(())
    }

    // The causes of the trace at a place, and on an Eagle reel that of its trailer behind them.
    fn check_whole(self, reel: &[u8], at: usize) -> Result<(), Refusal>
        requires { at + self.stride ≤ length reel.now }
        ensures { checked result ≡ trace_causes_by self.layout reel.now self.code self.samples self.interval at }
    {
        self.check_trace(reel, at)?;
        match self.layout {
            Layout::Plain => Ok(()),
            Layout::Eagle => check_trailer(reel, at + (240 + self.samples * self.width)),
        }
    }

    // 7, 8, 18, then 9 or 19, then 20, trace by trace.
    fn check_traces(self, reel: &[u8]) -> Result<(), Refusal>
        requires { first_trace + self.traces * self.stride ≤ length reel.now }
        ensures { checked result ≡ first_of (walk (trace_causes_by self.layout reel.now self.code self.samples self.interval) self.stride self.traces first_trace) }
    {
        for t in 0..self.traces {
            self.check_whole(reel, 3600 + t * self.stride)?;
        }
        Ok(())
    }
}

// The bytes from one trace to the next, of n samples of v bytes.
fn stride_in(layout: Layout, n: usize, v: usize) -> usize
    requires { n * v ≤ 4 * 65536 }
    ensures { result ≡ stride_in layout n v }
{
    match layout {
        Layout::Plain => 240 + n * v,
        Layout::Eagle => 240 + n * v + 960,
    }
}

// Whether a cause applies to a reel of a layout, and its own numbers where none does.
fn judge(layout: Layout, reel: &[u8]) -> Result<Numbers, Refusal>
    ensures is { judged result ≡ judged_by layout reel.now }
    ensures layout { IfOk result (λ own. own.layout ≡ layout) }
{
    let size = reel.len();
    if size < 3600 {
        return Err(Refusal {
            cause: Cause::ShortReel,
            place: Place(size),
        });
    }
    let code = binary_number(reel, ByteNo(3225));
    let samples = binary_number(reel, ByteNo(3221));
    let interval = binary_number(reel, ByteNo(3217));
    check_header(layout, code, samples, interval)?;
    let width = formats::width_of(code);
    let stride = stride_in(layout, samples, width);
    let traces = (size - 3600) / stride;
    check_size(size, stride, traces, (size - 3600) % stride)?;
    let own = Numbers {
        layout,
        code,
        samples,
        interval,
        width,
        stride,
        traces,
    };
    own.check_traces(reel)?;
    Ok(own)
}

// Whether a cause of 1 to 9, 18 and 19 applies to a plain reel, and its own numbers where none does. A call of its own, as C has one for each
// layout.
pub fn judge_reel(reel: &[u8]) -> Result<Numbers, Refusal>
    ensures is { judged result ≡ reel_judged reel.now }
    ensures layout { IfOk result (λ own. own.layout ≡ Layout.Plain) }
{
    judge(Layout::Plain, reel)
}

// Whether a cause of 1 to 8, 18 and 20 applies to an Eagle reel, and its own numbers where none does. A call of its own, likewise.
pub fn judge_eagle(reel: &[u8]) -> Result<Numbers, Refusal>
    ensures is { judged result ≡ judged_by Eagle reel.now }
    ensures layout { IfOk result (λ own. own.layout ≡ Layout.Eagle) }
{
    judge(Layout::Eagle, reel)
}
