// How many IBM words of a trace are not normal. They are counted in a loop of their own, which the compiler turns into one over several
// words at once: in the loop that reads them, it would cost three tenths of the speed.
#![tactic(auto)]

ghost use Rattle.std.specs.Prelude.{◌≡◌, ◌+◌, ◌*◌, ◌^◌, ◌≤◌, ◌<◌, ℕ, Bool, eqb, length};
ghost use Rattle.numbers.specs.Walk.{pick};
ghost use Rattle.numbers.specs.Places.{place_no};
ghost use Rattle.reel.specs.Causes.{most_samples};
ghost use Rattle.count_words.specs.Counted.{words_counted};
ghost use Rattle.count_words.specs.Parts.{zero_digit, tested, passing_words};

use numbers::Place;

// The most samples of a trace.
const MOST_SAMPLES: usize = 32767;

// 1 where the first digit of F is 0 and b isn't. 15 less the digit stands over b, so that one comparison is enough.
fn zero_digit(x: u32, b: u32) -> u32
    requires { b < 2 ^ 8 }
    ensures { (result ≡ zero_digit x b) × (result ≤ 1) }
{
    if 0xF000 < (15 - x / 0x1000 % 16) * 0x1000 + b {
        1
    } else {
        0
    }
}

// 1 for 80000000.
fn minus_zero(x: u32) -> u32
    ensures { (result ≡ pick (eqb x 0x80) 1 0) × (result ≤ 1) }
{
    if x == 0x80 { 1 } else { 0 }
}

// How many words pass a test, which gives 1 or more of the word's four bytes as a number, the first lowest, as a processor of today fetches
// them. It is 1 where the word may be one that isn't normal, or only where it is one.
fn count_passing<F: Fn(u32) -> u32>(words: &[[u8; 4]], test: F) -> u32
    requires callable { F.IsAlwaysCallable test }
    requires few { length words.now ≤ most_samples }
    requires small { (x r : ℕ) → F.post test x r → r ≤ 2 }
    ensures { (exact : Bool) → ((x r : ℕ) → F.post test x r → r ≡ tested exact x) → result ≡ passing_words exact words.now }
{
    words
        .iter()
        .map(|word| test(u32::from_le_bytes(*word)))
        .sum()
}

// How many of n words from a place on are not normal; 0 where they aren't all there, or are more than a trace has. Most traces have no word
// that may count: only one that has some is counted exactly.
pub fn count_words(reel: &[u8], code: usize, n: usize, start: Place) -> usize
    ensures { result ≡ words_counted reel.now code n (place_no start) }
{
    let at = start.0;
    if code != 1 {
        return 0;
    }
    if MOST_SAMPLES < n {
        return 0;
    }
    if !slices::are_within(reel.len(), n, 4, at) {
        return 0;
    }
    let (words, _) = reel[at..at + n * 4].as_chunks::<4>();
    if count_passing(words, |x| zero_digit(x, x % 0x100)) == 0 {
        return 0;
    }
    count_passing(words, |x| zero_digit(x, x % 0x80) + minus_zero(x)) as usize
}
