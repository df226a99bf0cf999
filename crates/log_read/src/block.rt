// Whether a block is sound: its two sums, refusal 12, and its layout, refusal 13.
ghost use Rattle.std.specs.Prelude.{◌≡◌, ◌<◌, ◌^◌, OnOk};
ghost use Rattle.log_format.specs.Refusals.{log_refusal_number};
ghost use Rattle.log_format.specs.Blocks.{block_refusal};
ghost use Rattle.log_read.specs.Faults.{fault_refusal, refusal_of};

use crate::layout::is_laid_out;
use log_bytes::sums::is_checked;

// What is wrong with a block that is not sound.
#[derive(Clone, Copy, Debug, PartialEq, Eq)]
pub enum BlockFault {
    WrongCheck,
    BadContents,
}

// The number of the refusal.
impl From<BlockFault> for u32 {
    ghost from_gives = { λ f n. n ≡ log_refusal_number (fault_refusal f) };

    fn from(f: BlockFault) -> u32 {
        match f {
            BlockFault::WrongCheck => 12,
            BlockFault::BadContents => 13,
        }
    }
}

// The first fault of a block. `before` is the record count of the block before it. A sound block has an index below 2^32,
// so that a caller's loop over blocks ends.
pub fn refusal(block: &[u8; 512], index: u64, before: u64) -> Result<(), BlockFault>
    ensures refused { refusal_of result ≡ block_refusal block.now index before }
    ensures numbered { OnOk result (index < 2 ^ 32) }
{
    if !is_checked(block) {
        return Err(BlockFault::WrongCheck);
    }
    if !is_laid_out(block, index, before) {
        return Err(BlockFault::BadContents);
    }
    Ok(())
}
