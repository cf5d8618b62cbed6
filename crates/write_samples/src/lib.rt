// The samples of a trace, from pairs to words: whether they can be written under a code, their words, and their words to the nearest. Each is
// one loop over the pairs, with what is made of a pair lent to it by each code.
#![tactic(auto)]

ghost use Rattle.std.specs.Prelude.{◌≡◌, ◌+◌, ◌*◌, ◌^◌, ◌<◌, ◌≤◌, ℕ, Result, MatchOption, length};
ghost use Rattle.numbers.specs.Cause.{checked};
ghost use Rattle.numbers.specs.Places.{place_no};
ghost use Rattle.numbers.specs.declared.Cause as declared;
ghost use Rattle.formats.specs.Codes.{code_no, sample_bytes};
ghost use Rattle.formats.specs.Written as spec;
ghost use Rattle.numbers.specs.Walk.{walk, bytes_at};
ghost use Rattle.value.specs.Writing as near;
ghost use Rattle.value.specs.declared.Pair as pair;
ghost use Rattle.value.specs.declared.Rounded as found;
ghost use Rattle.write_samples.specs.Samples.{pair_refused, samples_checked, samples_written};
ghost use Rattle.write_samples.specs.Nearest.{nearest_samples_written, nearest_samples_counted};
ghost use Rattle.write_samples.specs.Pairs.{pairs_refused, words_content, rounded_content, rounded_count};

use formats::Code;
use numbers::{Cause, Number, Place, Refusal};
use value::{Pair, Rounded};

// The refusal of a pair at a place.
fn refused(word: Result<u32, Cause>, at: usize) -> Result<(), Refusal>
    ensures { checked result ≡ pair_refused (spec.written word) at }
{
    match word {
        Ok(_) => Ok(()),
        Err(cause) => Err(Refusal {
            cause,
            place: Place(at),
        }),
    }
}

// The first refusal of pairs of which the first stands at a place: 13 or 14, by what gives a pair's word.
fn check_pairs<F: Fn(Pair) -> Result<u32, Cause>>(
    pairs: &[[u8; 6]],
    word_of: F,
    start: usize,
) -> Result<(), Refusal>
    requires callable { F.IsAlwaysCallable word_of }
    requires near { start + length pairs.now * 6 < 2 ^ 64 }
    ensures { (word : pair.Pair → spec.Written) → ((p : pair.Pair) (r : Result ℕ declared.Cause) → F.post word_of p r → spec.written r ≡ word p) → checked result ≡ pairs_refused word pairs.now start }
{
    for (i, pair) in pairs.iter().enumerate() {
        let word = word_of(Pair::of_bytes(*pair));
        let Ok(_) = word else {
            return refused(word, start + i * 6);
        };
    }
    Ok(())
}

// The words of some pairs, by what gives a pair's word. The pairs of a record that came through the causes 11 to 14 all have a word; for one
// without, which only the types allow here, the bits are 0, so that the loop needs no condition on each pair.
fn put_words<N: Number, F: Fn(Pair) -> Result<u32, Cause>>(
    pairs: &[[u8; 6]],
    word_of: F,
    out: &mut [u8],
)
    requires callable { F.IsAlwaysCallable word_of }
    requires room { length out.old ≡ length pairs.now * N.SIZE }
    ensures { (word : pair.Pair → spec.Written) → ((p : pair.Pair) (r : Result ℕ declared.Cause) → F.post word_of p r → spec.written r ≡ word p) → out.new ≡ words_content N.SIZE word pairs.now }
{
    for (i, pair) in pairs.iter().enumerate() {
        let at = i * N::SIZE;
        let bits = word_of(Pair::of_bytes(*pair)).unwrap_or(0);
        N::of_low(bits).put(&mut out[at..at + N::SIZE]);
    }
}

// The words of some pairs to the nearest, and how many have another value, by what gives a pair's nearest word.
fn put_nearest<N: Number, F: Fn(Pair) -> Rounded>(
    pairs: &[[u8; 6]],
    nearest_to: F,
    out: &mut [u8],
) -> usize
    requires callable { F.IsAlwaysCallable nearest_to }
    requires room { length out.old ≡ length pairs.now * N.SIZE }
    ensures count { (nearest : pair.Pair → near.Rounded) → ((p : pair.Pair) (r : found.Rounded) → F.post nearest_to p r → near.rounded r ≡ nearest p) → result ≡ rounded_count nearest pairs.now }
    ensures words { (nearest : pair.Pair → near.Rounded) → ((p : pair.Pair) (r : found.Rounded) → F.post nearest_to p r → near.rounded r ≡ nearest p) → out.new ≡ rounded_content N.SIZE nearest pairs.now }
{
    let mut changed = 0;
    for (i, pair) in pairs.iter().enumerate() {
        let at = i * N::SIZE;
        let word = nearest_to(Pair::of_bytes(*pair));
        N::of_low(word.bits).put(&mut out[at..at + N::SIZE]);
        changed += word.changed as usize;
    }
    changed
}

// The n pairs from a place on, if they are all there.
fn pairs_at(record: &[u8], n: usize, start: Place) -> Option<&[[u8; 6]]>
    ensures { MatchOption result (length «record».now < place_no start + n * 6) (λ pairs. (place_no start + n * 6 ≤ length «record».now) × (pairs.now ≡ walk (λ p. bytes_at «record».now p 6) 6 n (place_no start))) }
{
    let at = start.0;
    if !slices::are_within(record.len(), n, 6, at) {
        return None;
    }
    Some(record[at..at + n * 6].as_chunks::<6>().0)
}

// The first refusal of pairs under a code. Each code has a loop of its own, since what gives a pair's word is lent to the loop.
fn check_by(code: Code, pairs: &[[u8; 6]], start: usize) -> Result<(), Refusal>
    requires { start + length pairs.now * 6 < 2 ^ 64 }
    ensures { checked result ≡ pairs_refused (near.write_pair (code_no code)) pairs.now start }
{
    match code {
        Code::Ibm => check_pairs(pairs, Pair::ibm_word, start),
        Code::Whole32 => check_pairs(pairs, Pair::whole32_word, start),
        Code::Whole16 => check_pairs(pairs, Pair::whole16_word, start),
        Code::Gain => check_pairs(pairs, Pair::gain_word, start),
        Code::Ieee => check_pairs(pairs, Pair::ieee_word, start),
        Code::Whole8 => check_pairs(pairs, Pair::whole8_word, start),
    }
}

// Whether a trace's samples can be written under a code: 11 where the code is none; 12 where n pairs from a place on aren't all there;
// else the cause 13 or 14 against the first pair that has one.
pub fn check_samples(record: &[u8], code: u32, n: usize, start: Place) -> Result<(), Refusal>
    ensures { checked result ≡ samples_checked «record».now code n (place_no start) }
{
    let Some(code) = Code::of(code as usize) else {
        return Err(Refusal {
            cause: Cause::TargetCode,
            place: Place(0),
        });
    };
    let Some(pairs) = pairs_at(record, n, start) else {
        return Err(Refusal {
            cause: Cause::RecordForm,
            place: start,
        });
    };
    check_by(code, pairs, start.0)
}

// The words of some pairs under a code.
fn put_samples(code: Code, pairs: &[[u8; 6]], out: &mut [u8])
    requires { length out.old ≡ length pairs.now * sample_bytes (code_no code) }
    ensures { out.new ≡ words_content (sample_bytes (code_no code)) (near.write_pair (code_no code)) pairs.now }
{
    match code {
        Code::Ibm => put_words::<u32, _>(pairs, Pair::ibm_word, out),
        Code::Whole32 => put_words::<u32, _>(pairs, Pair::whole32_word, out),
        Code::Whole16 => put_words::<u16, _>(pairs, Pair::whole16_word, out),
        Code::Gain => put_words::<u32, _>(pairs, Pair::gain_word, out),
        Code::Ieee => put_words::<u32, _>(pairs, Pair::ieee_word, out),
        Code::Whole8 => put_words::<u8, _>(pairs, Pair::whole8_word, out),
    }
}

// The samples of a trace: the words of n pairs from a place on. Where the code is none, the pairs aren't all there or the output isn't as
// long as n words, it is left as it was.
pub fn write_samples(record: &[u8], code: u32, n: usize, start: Place, out: &mut [u8])
    ensures { out.new ≡ samples_written «record».now code n (place_no start) out.old }
{
    let Some(code) = Code::of(code as usize) else {
        return;
    };
    let Some(pairs) = pairs_at(record, n, start) else {
        return;
    };
    if slices::make_up(out.len(), n, code.width()) {
        put_samples(code, pairs, out);
    }
}

// ## To the nearest

// The words of some pairs under a code to the nearest, and how many have another value.
fn put_rounded(code: Code, pairs: &[[u8; 6]], out: &mut [u8]) -> usize
    requires { length out.old ≡ length pairs.now * sample_bytes (code_no code) }
    ensures count { result ≡ rounded_count (near.nearest_pair (code_no code)) pairs.now }
    ensures words { out.new ≡ rounded_content (sample_bytes (code_no code)) (near.nearest_pair (code_no code)) pairs.now }
{
    match code {
        Code::Ibm => put_nearest::<u32, _>(
            pairs,
            |p: Pair| -> Rounded
                ensures { near.rounded result ≡ near.nearest_pair 1 p }
            { p.nearest(Code::Ibm) },
            out,
        ),
        Code::Whole32 => put_nearest::<u32, _>(
            pairs,
            |p: Pair| -> Rounded
                ensures { near.rounded result ≡ near.nearest_pair 2 p }
            { p.nearest(Code::Whole32) },
            out,
        ),
        Code::Whole16 => put_nearest::<u16, _>(
            pairs,
            |p: Pair| -> Rounded
                ensures { near.rounded result ≡ near.nearest_pair 3 p }
            { p.nearest(Code::Whole16) },
            out,
        ),
        Code::Gain => put_nearest::<u32, _>(
            pairs,
            |p: Pair| -> Rounded
                ensures { near.rounded result ≡ near.nearest_pair 4 p }
            { p.nearest(Code::Gain) },
            out,
        ),
        Code::Ieee => put_nearest::<u32, _>(
            pairs,
            |p: Pair| -> Rounded
                ensures { near.rounded result ≡ near.nearest_pair 5 p }
            { p.nearest(Code::Ieee) },
            out,
        ),
        Code::Whole8 => put_nearest::<u8, _>(
            pairs,
            |p: Pair| -> Rounded
                ensures { near.rounded result ≡ near.nearest_pair 8 p }
            { p.nearest(Code::Whole8) },
            out,
        ),
    }
}

// The samples of a trace to the nearest: the words of n pairs from a place on, and how many have another value than their pairs. Where the
// code is none, the pairs aren't all there or the output isn't as long as n words, it is left as it was, and the count is 0.
pub fn write_nearest(record: &[u8], code: u32, n: usize, start: Place, out: &mut [u8]) -> usize
    ensures { (result ≡ nearest_samples_counted «record».now code n (place_no start) out.old) × (out.new ≡ nearest_samples_written «record».now code n (place_no start) out.old) }
{
    let Some(code) = Code::of(code as usize) else {
        return 0;
    };
    let Some(pairs) = pairs_at(record, n, start) else {
        return 0;
    };
    if !slices::make_up(out.len(), n, code.width()) {
        return 0;
    }
    put_rounded(code, pairs, out)
}
