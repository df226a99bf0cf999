// The refusals of the call by name, with their numbers.
ghost use Rattle.std.specs.Prelude.{◌≡◌};
ghost use Rattle.cut_down.specs.declared.codes.CutRefusal.TheVariants.{Block, Setting};
ghost use Rattle.cut_down.specs.Codes.{number_of};

use log_read::block::BlockFault;
use refused::Refusal;

// Why a log is not cut down.
#[derive(Clone, Copy, Debug, PartialEq, Eq)]
pub enum CutRefusal {
    // The input is empty or ends within a block.
    Cut,
    // A block is not sound.
    Block(BlockFault),
    // The setting of block 0 is refused.
    Setting(Refusal),
    // More than 64 records.
    TooMany,
    // Records that do not differ.
    Agrees,
}

impl From<BlockFault> for CutRefusal {
    ghost from_gives = { λ f r. r ≡ Block f };

    fn from(f: BlockFault) -> CutRefusal {
        CutRefusal::Block(f)
    }
}

impl From<Refusal> for CutRefusal {
    ghost from_gives = { λ r q. q ≡ Setting r };

    fn from(r: Refusal) -> CutRefusal {
        CutRefusal::Setting(r)
    }
}

// The number of the refusal.
impl From<CutRefusal> for u32 {
    ghost from_gives = { λ r n. n ≡ number_of r };

    fn from(r: CutRefusal) -> u32 {
        match r {
            CutRefusal::Cut => 11,
            CutRefusal::Block(f) => u32::from(f),
            CutRefusal::Setting(r) => u32::from(r),
            CutRefusal::TooMany => 20,
            CutRefusal::Agrees => 21,
        }
    }
}
