// Elevations and coordinates with their scalars: the power of a scalar, and what takes a group to the smallest power at which all its
// numbers are whole and fit 32 signed bits.
#![tactic(auto)]

ghost use Rattle.std.specs.Prelude.{◌≡◌, ◌^◌, ◌<◌, ◌≤◌};
ghost use Rattle.scalars.specs.Scalar.{powers, is_allowed, power_of, scalar_of, scaled_by, smallest, scale_of, is_smallest};
ghost use Rattle.scalars.specs.Parts.{largest, Raised};

// What takes a group to its smallest power: the factor of its numbers, and the scalar of that power.
#[derive(Clone, Copy)]
pub struct Scale {
    pub factor: i32,
    pub scalar: i16,
}

// Ten to each power from 0 to 8. `10i32.pow(d)` was tried and is too slow: the scale of a group takes a quarter longer.
const TENS: [i32; 9] = [
    1, 10, 100, 1000, 10000, 100000, 1000000, 10000000, 100000000,
];

// The scalar of each power of ten from -4 to 4.
const SCALARS: [i16; 9] = [-10000, -1000, -100, -10, 1, 10, 100, 1000, 10000];

// A power of ten from -4 to 4, by the index of its scalar, 0 to 8.
#[derive(Clone, Copy)]
struct Power {
    index: usize,
    ghost in_range: { index < powers },
}

impl Power {
    // The power of a scalar. 0, and a number that is no scalar, is taken as 1.
    fn of(scalar: i16) -> Self
        ensures { result.index ≡ power_of scalar }
    {
        let found = SCALARS.iter().position(|s| *s == scalar);
        Power {
            index: found.unwrap_or(4),
        }
    }

    // The scalar of this power.
    fn scalar(self) -> i16
        ensures { result ≡ scalar_of self.index }
    {
        SCALARS[self.index]
    }

    // The smallest power that serves a group of numbers at this one.
    fn smallest_for<const K: usize>(self, group: [i32; K]) -> Self
        ensures least { result.index ≡ smallest (scaled_by self.index group.entry) }
        ensures no_higher { result.index ≤ self.index }
    {
        Power {
            index: self.index - zeros_behind(largest_of(group), self.index),
        }
    }
}

// The largest magnitude of a group.
fn largest_of<const K: usize>(group: [i32; K]) -> u32
    ensures { result ≡ largest group.entry }
{
    group.iter().map(|z| z.unsigned_abs()).max().unwrap_or(0)
}

// How many zeros, a given number at most, can be put behind a magnitude within 2^31.
#[tactic(auto, using(crate::proofs::Powers::one_zero_more))]
fn zeros_behind(magnitude: u32, most: usize) -> usize
    requires { magnitude ≤ 2 ^ 31 }
    ensures { Raised magnitude most result }
{
    let mut raised = magnitude;
    for zeros in 0..most {
        if 214_748_364 < raised {
            return zeros;
        }
        raised *= 10;
    }
    most
}

// Whether a reel may hold this scalar.
pub fn is_allowed(scalar: i16) -> bool
    ensures { result ≡ is_allowed scalar }
{
    matches!(scalar.unsigned_abs(), 0 | 1 | 10 | 100 | 1000 | 10000)
}

// What takes a group under a scalar to the smallest power that serves it.
pub fn scale_of<const K: usize>(group: [i32; K], scalar: i16) -> Scale
    ensures { result ≡ scale_of group.entry scalar }
{
    let power = Power::of(scalar);
    let smallest = power.smallest_for(group);
    Scale {
        factor: TENS[power.index - smallest.index],
        scalar: smallest.scalar(),
    }
}

// Whether a record may hold a group under this scalar: it must be that of the smallest power.
pub fn is_smallest<const K: usize>(group: [i32; K], scalar: i16) -> bool
    ensures { result ≡ is_smallest group.entry scalar }
{
    scalar == Power::of(scalar).smallest_for(group).scalar()
}
