//! Comparisons of many bytes at once.
ghost use Rattle.std.specs.Prelude.{◌≡◌, ◌==◌, if◌then◌else◌};
ghost use Rattle.std.specs.{List.list_all, Int.trailing_zeros, Int.w64};

/// How many bytes are compared at once.
pub(crate) const LANES: usize = 32;

/// The lowest bit that is set in the mask, or `lanes` if none is.
#[inline(always)]
pub(crate) fn first_lane(mask: u64, lanes: usize) -> usize
    ensures { result ≡ (if mask == 0 then lanes else trailing_zeros w64 mask) }
{
    if mask == 0 {
        lanes
    } else {
        mask.trailing_zeros() as usize
    }
}

/// Tests all bytes without an early exit, so that the compiler can vectorize the loop.
pub(crate) fn all_are(bytes: &[u8], byte: u8) -> bool
    ensures { result ≡ list_all (λ b. b == byte) bytes.now }
{
    let mut all = true;
    for other in bytes {
        all &= *other == byte;
    }
    all
}
