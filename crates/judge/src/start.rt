// Block 0 of a log, known to be sound: its setting and seeds, with which the model is set up through the contract of set-up.
ghost use Rattle.std.specs.Prelude.{IfOk};
ghost use Rattle.rules.specs.Policy.{narrow};
ghost use Rattle.log_format.specs.Verdict.{judge_start};
ghost use Rattle.sound.specs.Held.{Same};
ghost use Rattle.judge.specs.Follow.{going};
ghost use Rattle.judge.specs.Blocks.{read_in, Carried, JudgedBlock};

use crate::reading::Reading;
use sound::buffers::Buffers;
use tally::{Progress, Report};

// Block 0: set-up with its setting and seeds, which also finds whether they are the house seeds; no later block tests that again. Ok: the log goes
// on from here. Err: it is over with this report.
#[tactic(auto, using(crate::proofs::reading::Start::start_refused))]
pub fn judge_start(
    x: Reading,
    m: &mut Buffers<'_, u16>,
    block: &[u8; 512],
) -> Result<Reading, Report>
    ensures same { Same m.old m.new }
    ensures judged { JudgedBlock 0 (going (λ y. read_in y m.new) result) (judge_start narrow (read_in x m.old) block.now) }
    ensures carried { IfOk result Carried }
{
    let setting = log_read::contents::setting(block);
    let seeds = log_read::contents::seeds(block);
    let progress = Progress {
        blocks: 1,
        records: 0,
        opened: 0,
        last: 0,
    };
    let mut head = x.head;
    match throttle::setup(setting, &seeds, &mut head, m) {
        Ok(table) => Ok(Reading {
            progress,
            setting,
            seeds,
            table,
            head,
        }),
        Err(refusal) => Err(Report::Refused {
            number: u64::from(u32::from(refusal)),
            blocks: 0,
        }),
    }
}
