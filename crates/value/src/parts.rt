// A value taken apart.

ghost use Rattle.std.specs.Prelude.{◌≡◌, ◌+◌, ◌-◌, ◌%◌, ◌^◌, ◌<◌, ◌≤◌};
ghost use Rattle.formats.specs.Codes.{denominator_power};
ghost use Rattle.value.specs.Pair.{highest_exponent, mantissa_bits};

// V = ± odd × 2^power, the value of a canonical pair other than zero: its mantissa is odd, and both numbers are within their limits.
#[derive(Clone, Copy)]
pub(crate) struct Odd {
    pub(crate) negative: bool,
    pub(crate) odd: u32,
    pub(crate) power: u32,
    ghost is_odd: { odd % 2 ≡ 1 },
    ghost few: { odd < 2 ^ (mantissa_bits - 1) },
    ghost low: { power ≤ denominator_power + highest_exponent },
}
