// A block of a log: whether it is sound, and then its setting or its records. The reading of a block and the judging of its setting or records
// are called only through their contracts, and every step is proved to be the one of the log's definition of the verdict.
ghost use Rattle.std.specs.Prelude.{IfOk};
ghost use Rattle.rules.specs.Policy.{narrow};
ghost use Rattle.log_format.specs.Verdict.{judge_block};
ghost use Rattle.sound.specs.Held.{Same};
ghost use Rattle.judge.specs.Follow.{going};
ghost use Rattle.judge.specs.Blocks.{read_in, Carried, Ready, JudgedBlock};

use crate::later::judge_later;
use judge::reading::Reading;
use judge::start::judge_start;
use sound::buffers::Buffers;
use tally::{Report, refused};

// Any block of a log: its setting or records are judged only where the whole block is sound. Ok: the log goes on from here. Err: it is over with this
// report.
#[tactic(auto, using(crate::proofs::Blocks::block_steps))]
pub fn judge_block(
    x: Reading,
    m: &mut Buffers<'_, u16>,
    block: &[u8; 512],
) -> Result<Reading, Report>
    requires { Ready (read_in x m.old) × Carried x }
    ensures same { Same m.old m.new }
    ensures judged { JudgedBlock x.progress.blocks (going (λ y. read_in y m.new) result) (judge_block narrow (read_in x m.old) block.now) }
    ensures carried { IfOk result Carried }
{
    let p = x.progress;
    if let Err(fault) = log_read::block::refusal(block, p.blocks, p.last) {
        return Err(refused(u64::from(u32::from(fault)), p));
    }
    if p.blocks == 0 {
        return judge_start(x, m, block);
    }
    judge_later(x, m, block)
}
