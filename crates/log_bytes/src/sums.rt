// The two sums of a block, computed, and compared with those that the block holds: refusal 12.
ghost use Rattle.std.specs.Prelude.{◌≡◌, ◌+◌, ◌*◌, ◌≤◌, ◌<◌};
ghost use Rattle.log_format.specs.Blocks.{sum_to, weighted_to, checked};

use crate::read::word16;

// The two sums of bytes 0 to 507, not yet reduced.
#[derive(Clone, Copy, Debug, PartialEq, Eq)]
pub struct Sums {
    pub plain: u32,
    pub weighted: u32,
}

// (place + 1) × byte
fn weight(place: u32, byte: u32) -> u32
    requires { (place < 508) × (byte ≤ 255) }
    ensures { (result ≡ (place + 1) * byte) × (result ≤ 129540) }
{
    (place + 1) * byte
}

// One pass; the remainders are taken afterwards, once.
pub fn add_up(block: &[u8; 512]) -> Sums
    ensures { (result.plain ≡ sum_to block.now 508) × (result.weighted ≡ weighted_to block.now 508) }
{
    let mut plain: u32 = 0;
    let mut weighted: u32 = 0;
    for (i, b) in block[..508].iter().enumerate() {
        let b = u32::from(*b);
        plain += b;
        weighted += weight(i as u32, b);
    }
    Sums { plain, weighted }
}

// The sums at bytes 508 to 511 are those of the block.
pub fn is_checked(block: &[u8; 512]) -> bool
    ensures { result ≡ checked block.now }
{
    let s = add_up(block);
    let plain = u64::from(s.plain % 65521);
    let weighted = u64::from(s.weighted % 65521);
    (word16(block, 508) == plain) & (word16(block, 510) == weighted)
}
