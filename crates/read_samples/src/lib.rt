// The samples of a trace, from words to pairs: one loop over the words, with what makes a pair of a word lent to it by each code.
#![tactic(auto)]

ghost use Rattle.std.specs.Prelude.{◌≡◌, ◌+◌, ◌*◌, ◌≤◌, [], ◌∷◌, length, slice_index};
ghost use Rattle.numbers.specs.Places.{place_no};
ghost use Rattle.formats.specs.Codes.{code_no, sample_bytes};
ghost use Rattle.formats.specs.Value.{exact_value};
ghost use Rattle.value.specs.Pair.{pair_of};
ghost use Rattle.value.specs.declared.Pair as declared;
ghost use Rattle.read_samples.specs.Samples.{pair_content, sample_pairs, samples_read};
ghost use Rattle.read_samples.specs.Parts.{pairs_content};

use formats::Code;
use numbers::{Number, Place};
use value::Pair;

// Stores a pair: its exponent in two bytes, its mantissa in four.
fn put_sample(pair: Pair, out: &mut [u8])
    requires { length out.old ≡ 6 }
    ensures { out.new ≡ pair_content pair }
{
    u16::of_signed(pair.e).put(&mut out[..2]);
    u32::of_signed(pair.m).put(&mut out[2..]);
}

// The samples of some words, by what makes a pair of a word. The library doesn't say what a slice holds after `as_chunks_mut`, so each pair goes
// to its place.
fn put_samples<W: Copy, F: Fn(W) -> Pair>(words: &[W], pair_of_word: F, out: &mut [u8])
    requires callable { F.IsAlwaysCallable pair_of_word }
    requires room { length out.old ≡ length words.now * 6 }
    ensures { (pair : W → declared.Pair) → ((w : W) (r : declared.Pair) → F.post pair_of_word w r → r ≡ pair w) → out.new ≡ pairs_content pair words.now }
{
    for (i, word) in words.iter().enumerate() {
        let at = i * 6;
        put_sample(pair_of_word(*word), &mut out[at..at + 6]);
    }
}

// The samples of n words from a place on. Each code has a loop of its own, since what makes a pair of its words is lent to the loop.
fn put_words(reel: &[u8], code: Code, n: usize, at: usize, out: &mut [u8])
    requires there { at + n * sample_bytes (code_no code) ≤ length reel.now }
    requires room { length out.old ≡ n * 6 }
    ensures { out.new ≡ sample_pairs reel.now (code_no code) n at }
{
    let words = &reel[at..at + n * code.width()];
    match code {
        Code::Ibm => put_samples(
            words.as_chunks::<4>().0,
            |w: [u8; 4]| -> Pair
                ensures { result ≡ pair_of (exact_value 1 w) }
            { sample::pair_under(Code::Ibm, w) },
            out,
        ),
        Code::Whole32 => put_samples(
            words.as_chunks::<4>().0,
            |w: [u8; 4]| -> Pair
                ensures { result ≡ pair_of (exact_value 2 w) }
            { sample::pair_under(Code::Whole32, w) },
            out,
        ),
        Code::Whole16 => put_samples(
            words.as_chunks::<2>().0,
            |w: [u8; 2]| -> Pair
                ensures { result ≡ pair_of (exact_value 3 (slice_index w 0 ∷ slice_index w 1 ∷ 0 ∷ 0 ∷ [])) }
            { sample::pair_under(Code::Whole16, [w[0], w[1], 0, 0]) },
            out,
        ),
        Code::Gain => put_samples(
            words.as_chunks::<4>().0,
            |w: [u8; 4]| -> Pair
                ensures { result ≡ pair_of (exact_value 4 w) }
            { sample::pair_under(Code::Gain, w) },
            out,
        ),
        Code::Ieee => put_samples(
            words.as_chunks::<4>().0,
            |w: [u8; 4]| -> Pair
                ensures { result ≡ pair_of (exact_value 5 w) }
            { sample::pair_under(Code::Ieee, w) },
            out,
        ),
        Code::Whole8 => put_samples(
            words,
            |w: u8| -> Pair
                ensures { result ≡ pair_of (exact_value 8 (w ∷ 0 ∷ 0 ∷ 0 ∷ [])) }
            { sample::pair_under(Code::Whole8, [w, 0, 0, 0]) },
            out,
        ),
    }
}

// The samples of a trace: the pairs of n words from a place on. Where the code is no format code, the words aren't all there or the output
// isn't as long as n pairs, it is left as it was.
pub fn read_samples(reel: &[u8], code: usize, n: usize, start: Place, out: &mut [u8])
    ensures { out.new ≡ samples_read reel.now code n (place_no start) out.old }
{
    let Some(code) = Code::of(code) else {
        return;
    };
    if !slices::are_within(reel.len(), n, code.width(), start.0) {
        return;
    }
    if slices::make_up(out.len(), n, 6) {
        put_words(reel, code, n, start.0, out);
    }
}
