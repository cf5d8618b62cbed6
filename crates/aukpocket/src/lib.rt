// The C interface: an exported function for each public call. A slice is a pointer and a length; an answer is a structure of numbers,
// whose `number` is 0 where the call was taken, else the number of the cause.
#![tactic(auto)]

ghost use Rattle.std.specs.Prelude.{◌≡◌, map};
ghost use Rattle.numbers.specs.Places.{place_no};
ghost use Rattle.numbers.specs.BigEndian.{number, bytes_of};
ghost use Rattle.numbers.specs.Cause.{cause_no};
ghost use Rattle.numbers.specs.Outcome.{refused};
ghost use Rattle.cards.specs.Cards.{blank};
ghost use Rattle.sample.specs.Calls as single;
ghost use Rattle.record.specs.Answer.{said_by, counted_by};
ghost use Rattle.reel.specs.declared.Layout.TheVariants.{Eagle};
ghost use Rattle.read_reel.specs.Reading.{read_outcome, read_outcome_by};
ghost use Rattle.write_reel.specs.Writing.{write_outcome};
ghost use Rattle.write_reel.specs.Nearest.{nearest_outcome};
ghost use Rattle.look_up.specs.LookUp.{look_up_outcome};
ghost use Rattle.compare.specs.Answer.{compare_outcome};
ghost use Rattle.reel_box.specs.Box.{box_outcome};
ghost use Rattle.code_page.specs.Page.{latin};
ghost use Rattle.listing.specs.Calls as calls;
ghost use Rattle.aukpocket.specs.Interface.{handed, taken_answer, refused_answer, reel_answer, reel_in, reel_handed, read_answer, read_handed, nearest_answer, nearest_handed, listing_answer, listing_handed, field_handed, order_number, order_answer, box_answer, sample_answer, word_answer, sample_in, sample_handed, word_handed};

use numbers::{ByteNo, Refusal};
use record::{Counted, Taken};
use std::cmp::Ordering;

// What a call on a whole reel or record answers: T, N and the length of what it wrote, of which the listing of a record's cards has the
// length alone; of reading a reel how many of its words are not normal, and of nearest writing how many samples have another value; or the
// number of the cause, and what stands beside it.
#[repr(C)]
#[derive(Clone, Copy)]
pub struct ReelAnswer {
    pub number: u64,
    pub traces: u64,
    pub samples: u64,
    pub length: u64,
    pub beside: u64,
    pub not_normal: u64,
    pub changed: u64,
}

// What looking up a field answers: its signed number; or the number of the cause, and what stands beside it.
#[repr(C)]
#[derive(Clone, Copy)]
pub struct FieldAnswer {
    pub number: u32,
    pub value: i32,
    pub beside: u64,
}

// What comparing two records answers: -1 where the first is the lesser, 0 where they count as equal, 1 where the second is the lesser; or which
// record is refused, 1 or 2, the number of the cause, and what stands beside it.
#[repr(C)]
#[derive(Clone, Copy)]
pub struct OrderAnswer {
    pub number: u32,
    pub order: i32,
    pub which: u64,
    pub beside: u64,
}

// What checking a box of reels answers: the number of reels and of traces; or the number of the cause, and what stands beside it.
#[repr(C)]
#[derive(Clone, Copy)]
pub struct BoxAnswer {
    pub number: u64,
    pub reels: u64,
    pub traces: u64,
    pub beside: u64,
}

// What a single-sample call answers: that it was taken, and of reading a word whether it isn't normal; or the number of the cause, and 0.
#[repr(C)]
#[derive(Clone, Copy)]
pub struct SampleAnswer {
    pub number: u64,
    pub beside: u64,
    pub not_normal: u64,
}

// Beside a refusal nothing is counted.
const NONE_COUNTED: u64 = 0;

// What a refused call on a whole reel or record answers, in numbers.
fn refused_answer(refusal: Refusal) -> ReelAnswer
    ensures { result ≡ refused_answer (cause_no refusal.cause) (place_no refusal.place) }
{
    ReelAnswer {
        number: refusal.cause.number() as u64,
        traces: 0,
        samples: 0,
        length: 0,
        beside: refusal.place.0 as u64,
        not_normal: NONE_COUNTED,
        changed: NONE_COUNTED,
    }
}

// What a taken call on a whole reel or record answers, in numbers: T, N, the length and both counts.
fn taken_answer(
    traces: usize,
    samples: usize,
    length: usize,
    not_normal: usize,
    changed: usize,
) -> ReelAnswer
    ensures { result ≡ taken_answer traces samples length not_normal changed }
{
    ReelAnswer {
        number: 0,
        traces: traces as u64,
        samples: samples as u64,
        length: length as u64,
        beside: 0,
        not_normal: not_normal as u64,
        changed: changed as u64,
    }
}

// An answer in numbers.
fn reel_answer(answer: Result<Taken, Refusal>) -> ReelAnswer
    ensures { handed result ≡ reel_answer (said_by answer) }
{
    match answer {
        Ok(a) => taken_answer(a.traces, a.samples, a.length, 0, 0),
        Err(refusal) => refused_answer(refusal),
    }
}

// An answer of reading with its count, in numbers.
fn read_answer(answer: Result<Counted, Refusal>) -> ReelAnswer
    ensures { handed result ≡ read_answer (counted_by answer) }
{
    match answer {
        Ok(a) => taken_answer(a.traces, a.samples, a.length, a.count, 0),
        Err(refusal) => refused_answer(refusal),
    }
}

// An answer of nearest writing with its count, in numbers. It differs from the one above in the count's place alone: two names say that more
// plainly than a parameter.
fn nearest_answer(answer: Result<Counted, Refusal>) -> ReelAnswer
    ensures { handed result ≡ nearest_answer (counted_by answer) }
{
    match answer {
        Ok(a) => taken_answer(a.traces, a.samples, a.length, 0, a.count),
        Err(refusal) => refused_answer(refusal),
    }
}

// Reads a plain reel into the front of a record buffer.
#[unsafe(no_mangle)]
pub extern "C" fn aukpocket_read_reel(reel: &[u8], out: &mut [u8]) -> ReelAnswer
    ensures { reel_in result out.new ≡ read_handed (read_outcome reel.now out.old) }
{
    read_answer(read_reel::read_reel(reel, out))
}

// Reads an Eagle reel into the front of a record buffer.
#[unsafe(no_mangle)]
pub extern "C" fn aukpocket_read_eagle(reel: &[u8], out: &mut [u8]) -> ReelAnswer
    ensures { reel_in result out.new ≡ read_handed (read_outcome_by Eagle reel.now out.old) }
{
    read_answer(read_reel::read_eagle(reel, out))
}

// Writes a record under a target code as a reel, into the front of a reel buffer.
#[unsafe(no_mangle)]
pub extern "C" fn aukpocket_write_reel(record: &[u8], code: u32, out: &mut [u8]) -> ReelAnswer
    ensures { reel_in result out.new ≡ reel_handed (write_outcome «record».now code out.old) }
{
    reel_answer(write_reel::write_reel(record, code, out))
}

// Writes a record under a target code as a reel, each sample as the nearest value of the code, into the front of a reel buffer.
#[unsafe(no_mangle)]
pub extern "C" fn aukpocket_write_nearest(record: &[u8], code: u32, out: &mut [u8]) -> ReelAnswer
    ensures { reel_in result out.new ≡ nearest_handed (nearest_outcome «record».now code out.old) }
{
    nearest_answer(write_reel::write_nearest(record, code, out))
}

// What listing a record's cards answers, in numbers.
fn listing_answer(answer: Result<usize, Refusal>) -> ReelAnswer
    ensures { handed result ≡ listing_answer (calls.said_by answer) }
{
    match answer {
        Ok(length) => taken_answer(0, 0, length, 0, 0),
        Err(refusal) => refused_answer(refusal),
    }
}

// Lists the cards of a record, by code page 037, into the front of an output.
#[unsafe(no_mangle)]
pub extern "C" fn aukpocket_list_cards(record: &[u8], out: &mut [u8]) -> ReelAnswer
    ensures { reel_in result out.new ≡ listing_handed (calls.list_outcome latin «record».now out.old) }
{
    listing_answer(listing::list_cards(record, out))
}

// Takes a corrected listing back, by code page 037: the record with its text, into the front of an output.
#[unsafe(no_mangle)]
pub extern "C" fn aukpocket_take_cards(record: &[u8], listing: &[u8], out: &mut [u8]) -> ReelAnswer
    ensures { reel_in result out.new ≡ reel_handed (calls.take_outcome latin «record».now listing.now out.old) }
{
    reel_answer(listing::take_cards(record, listing, out))
}

// Eight card bytes as one number, the first highest: 40 for each 00, and every other byte as it was.
#[unsafe(no_mangle)]
pub extern "C" fn aukpocket_blank_eight(cards: u64) -> u64
    ensures { result ≡ number (map blank (bytes_of 8 cards)) }
{
    cards::blank_eight(cards)
}

// Looks up the field that begins at a byte number, of the binary header for trace 0, else of that trace.
#[unsafe(no_mangle)]
pub extern "C" fn aukpocket_look_up(reel: &[u8], trace: usize, byte: u32) -> FieldAnswer
    ensures { handed result ≡ field_handed (look_up_outcome reel.now trace (record { 0 = byte })) }
{
    match look_up::look_up(reel, trace, ByteNo(byte)) {
        Ok(value) => FieldAnswer {
            number: 0,
            value,
            beside: 0,
        },
        Err(refusal) => FieldAnswer {
            number: refusal.cause.number() as u32,
            value: 0,
            beside: refusal.place.0 as u64,
        },
    }
}

// An order in numbers: -1, 0 or 1.
fn order_number(order: Ordering) -> i32
    ensures { result ≡ order_number order }
{
    match order {
        Ordering::Less => -1,
        Ordering::Equal => 0,
        Ordering::Greater => 1,
    }
}

// Compares two records.
#[unsafe(no_mangle)]
pub extern "C" fn aukpocket_compare(first: &[u8], second: &[u8]) -> OrderAnswer
    ensures { result ≡ order_answer (compare_outcome first.now second.now) }
{
    match compare::compare_records(first, second) {
        Ok(order) => OrderAnswer {
            number: 0,
            order: order_number(order),
            which: 0,
            beside: 0,
        },
        Err(refused) => OrderAnswer {
            number: refused.refusal.cause.number() as u32,
            order: 0,
            which: refused.which.number() as u64,
            beside: refused.refusal.place.0 as u64,
        },
    }
}

// Checks a box of reels, lent one behind the other with the list of their lengths.
#[unsafe(no_mangle)]
pub extern "C" fn aukpocket_check_box(reels: &[u8], lengths: &[u64]) -> BoxAnswer
    ensures { handed result ≡ box_answer (box_outcome reels.now lengths.now) }
{
    match reel_box::check_box(reels, lengths) {
        Ok(contents) => BoxAnswer {
            number: 0,
            reels: contents.reels as u64,
            traces: contents.traces as u64,
            beside: 0,
        },
        Err(refusal) => BoxAnswer {
            number: refusal.cause.number() as u64,
            reels: 0,
            traces: 0,
            beside: refusal.place.0 as u64,
        },
    }
}

// A refused single sample, in numbers.
fn refused_sample(refusal: Refusal) -> SampleAnswer
    ensures { handed result ≡ sample_answer (refused (cause_no refusal.cause) (place_no refusal.place)) }
{
    SampleAnswer {
        number: refusal.cause.number() as u64,
        beside: refusal.place.0 as u64,
        not_normal: 0,
    }
}

// What writing a pair answers, in numbers.
fn sample_answer(answer: Result<(), Refusal>) -> SampleAnswer
    ensures { handed result ≡ sample_answer (single.said_by answer) }
{
    match answer {
        Ok(()) => SampleAnswer {
            number: 0,
            beside: 0,
            not_normal: 0,
        },
        Err(refusal) => refused_sample(refusal),
    }
}

// What reading a word answers, in numbers.
fn word_answer(answer: Result<bool, Refusal>) -> SampleAnswer
    ensures { handed result ≡ word_answer (single.word_said answer) }
{
    match answer {
        Ok(not_normal) => SampleAnswer {
            number: 0,
            beside: 0,
            not_normal: u64::from(not_normal),
        },
        Err(refusal) => refused_sample(refusal),
    }
}

// One sample, from the four bytes of its word to the six of its canonical pair.
#[unsafe(no_mangle)]
pub extern "C" fn aukpocket_read_word(code: u32, word: &[u8; 4], pair: &mut [u8; 6]) -> SampleAnswer
    ensures { sample_in result pair.new ≡ word_handed (single.word_outcome code word.now) }
{
    let read = sample::read_word(code, *word);
    let bytes = read.pair;
    *pair = bytes;
    let answer = read.answer;
    word_answer(answer)
}

// One sample, from the six bytes of its pair to the four of its word.
#[unsafe(no_mangle)]
pub extern "C" fn aukpocket_write_pair(
    code: u32,
    pair: &[u8; 6],
    word: &mut [u8; 4],
) -> SampleAnswer
    ensures { sample_in result word.new ≡ sample_handed (single.pair_outcome code pair.now) }
{
    let written = sample::write_pair(code, *pair);
    let bytes = written.word;
    *word = bytes;
    let answer = written.answer;
    sample_answer(answer)
}
