//! The first bytes of a text, compared all at once.
ghost use Rattle.std.specs.Prelude.{◌≡◌, ◌≤◌, ◌↔◌, IsTrue, length, slice_index_or, take};
ghost use Rattle.texting_robots.specs.Internal.Segments.{Fits, IsHeadOf, first_eight, ones_below};

/// The first bytes of a segment, at most eight, and a mask of ones for them.
#[derive(Clone, Copy)]
pub(crate) struct Head {
    bytes: u64,
    mask: u64,
}

impl Head {
    /// The bytes after the first `len`, or after eight, are masked out.
    pub(crate) fn of(pattern: &[u8], len: usize) -> Self
        requires { len ≤ length pattern.now }
        ensures { IsHeadOf (take len pattern.now) result }
    {
        let mask = mask_of(len);
        Head {
            bytes: front(pattern) & mask,
            mask,
        }
    }

    pub(crate) fn fits(self, front: u64) -> bool
        ensures { IsTrue result ↔ Fits self front }
    {
        front & self.mask == self.bytes
    }
}

/// The first eight bytes as a number, with zeros for missing ones.
pub(crate) fn front(text: &[u8]) -> u64
    ensures { result ≡ first_eight text.now }
{
    if let Some(eight) = text.first_chunk::<8>() {
        return u64::from_le_bytes(*eight);
    }
    let byte = |at| byte_or_zero(text, at);
    u64::from_le_bytes([
        byte(0),
        byte(1),
        byte(2),
        byte(3),
        byte(4),
        byte(5),
        byte(6),
        0,
    ])
}

fn byte_or_zero(text: &[u8], at: usize) -> u8
    ensures { result ≡ slice_index_or text.now at 0 }
{
    text.get(at).copied().unwrap_or(0)
}

/// Ones for the first `len` bytes of eight.
fn mask_of(len: usize) -> u64
    ensures { result ≡ ones_below len }
{
    if len < 8 {
        (1 << (8 * len)) - 1
    } else {
        u64::MAX
    }
}
