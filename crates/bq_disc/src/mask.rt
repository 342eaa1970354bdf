//! Sets of processors: bit k of a mask is processor k.
ghost use Rattle.std.specs.Prelude.{◌≡◌, ◌<◌, ◌≤◌, ◌%◌, ◌^◌};
ghost use Rattle.bq_disc.specs.Masks.{allows};

use crate::limits::PROCESSORS;

/// Whether a mask has this processor. No mask has a processor with a number of 64 or more.
pub fn allows(mask: u64, processor: u8) -> bool
    ensures { result ≡ allows mask processor }
{
    processor < PROCESSORS && has(mask, processor)
}

/// Whether a mask has this processor, whose number is below `PROCESSORS`.
#[inline(always)]
pub fn has(mask: u64, processor: u8) -> bool
    requires { processor < PROCESSORS }
    ensures { result ≡ allows mask processor }
{
    (mask >> processor) % 2 == 1
}

/// The bits of a mask below bit `count`: those of the first `count` processors.
pub fn low_bits(mask: u64, count: usize) -> u64
    requires { count ≤ PROCESSORS }
    ensures { result ≡ mask % 2 ^ count }
{
    if count == 64 {
        mask
    } else {
        mask % (1 << count)
    }
}
