// A reel's own numbers.

ghost use Rattle.std.specs.Prelude.{◌≡◌, ◌≤◌, true};
ghost use Rattle.formats.specs.Codes.{is_code, sample_bytes};
ghost use Rattle.reel.specs.Layout.{stride_in};

use crate::Layout;

// A reel's layout and its own numbers, to which no cause applies: the format code, N, the interval, the bytes of a sample, the bytes from
// trace to trace, and T.
#[derive(Clone, Copy)]
pub struct Numbers {
    pub layout: Layout,
    pub code: usize,
    pub samples: usize,
    pub interval: usize,
    pub width: usize,
    pub stride: usize,
    pub traces: usize,
    ghost coded: { is_code code ≡ true },
    ghost samples_most: { samples ≤ 32767 },
    ghost interval_most: { interval ≤ 32767 },
    ghost width_is: { width ≡ sample_bytes code },
    ghost stride_is: { stride ≡ stride_in layout samples width },
}
