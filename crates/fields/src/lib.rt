// Samples that stand in several fields, one behind the other: how many stand in the next. What else is said of them is in specs/ and proofs/.
#![tactic(auto)]

ghost use Rattle.std.specs.Prelude.{◌≡◌, min};

// The samples of the next field, where so many are left: c, and in the last field the rest.
pub fn next_count(c: usize, left: usize) -> usize
    ensures { result ≡ min c left }
{
    c.min(left)
}
