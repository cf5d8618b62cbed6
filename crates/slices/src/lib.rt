// Bytes in slices: numbers at a place, copies and stores, and whether parts fit.
#![tactic(auto)]

ghost use Rattle.std.specs.Prelude.{◌≡◌, ◌+◌, ◌*◌, leb, eqb, length, slice_index};
ghost use Rattle.numbers.specs.Walk.{bytes_at, copy_of};
ghost use Rattle.numbers.specs.BigEndian.{number, bytes_of};
ghost use Rattle.numbers.specs.Places.{place_no};

use numbers::{Number, Place};
use std::array;

// The byte k places behind another, 0 where the slice has none there.
fn byte_after(s: &[u8], at: usize, k: usize) -> u8
    ensures { result ≡ slice_index s.now (at + k) }
{
    if s.len() <= at {
        return 0;
    }
    if s.len() - at <= k {
        return 0;
    }
    s[at + k]
}

// The number in the bytes at a place; a byte that the slice doesn't have is 0.
pub fn number_at<N: Number>(s: &[u8], at: Place) -> N
    ensures { N.value result ≡ number (bytes_at s.now (place_no at) N.SIZE) }
{
    let p = at.0;
    if are_within(s.len(), N::SIZE, 1, p) {
        return N::of_bytes(&s[p..p + N::SIZE]);
    }
    let bytes: [u8; 8] = array::from_fn(|k| byte_after(s, p, k));
    N::of_bytes(&bytes[..N::SIZE])
}

// Copies a slice into another of the same length. One of another length is left as it was. The library's `copy_from_slice` asks for a name from
// outside, `memcpy` or `memmove`, which who links for C may not have; of this loop the compiler makes vectors.
pub fn copy(src: &[u8], out: &mut [u8])
    ensures { out.new ≡ copy_of src.now out.old }
{
    if out.len() == src.len() {
        for i in 0..src.len() {
            out[i] = src[i];
        }
    }
}

// Stores a number in a slice of as many bytes. A slice of another length is left as it was.
pub fn put<N: Number>(n: N, out: &mut [u8])
    ensures { out.new ≡ copy_of (bytes_of N.SIZE (N.value n)) out.old }
{
    if out.len() == N::SIZE {
        n.put(out);
    }
}

// Whether n parts of w bytes each, from a place on, are within so many bytes.
pub fn are_within(bytes: usize, n: usize, w: usize, start: usize) -> bool
    ensures { result ≡ leb (start + n * w) bytes }
{
    if bytes < start {
        return false;
    }
    if w < 1 {
        return true;
    }
    n <= (bytes - start) / w
}

// Whether n parts of w bytes each make up so many bytes.
pub fn make_up(bytes: usize, n: usize, w: usize) -> bool
    ensures { result ≡ eqb bytes (n * w) }
{
    if !are_within(bytes, n, w, 0) {
        return false;
    }
    bytes == n * w
}
