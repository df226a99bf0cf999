// A block after block 0, known to be sound: its records, judged through the contract of `records`, and the block counted.
ghost use Rattle.std.specs.Prelude.{◌^◌, ◌≤◌, ◌<◌, IfOk};
ghost use Rattle.rules.specs.Policy.{narrow};
ghost use Rattle.log_format.specs.Contents.{count_in};
ghost use Rattle.log_format.specs.Verdict.{judge_later};
ghost use Rattle.sound.specs.Held.{Same};
ghost use Rattle.judge.specs.Follow.{going};
ghost use Rattle.judge.specs.Blocks.{read_in, Carried, Ready, JudgedBlock};

use crate::records::judge_records;
use judge::reading::Reading;
use sound::buffers::Buffers;
use tally::{Progress, Report};

// A later block: its records, none of which is counted yet.
#[tactic(auto, unfolding(log_format::specs::Verdict::judge_later))]
pub fn judge_later(
    x: Reading,
    m: &mut Buffers<'_, u16>,
    block: &[u8; 512],
) -> Result<Reading, Report>
    requires { Ready (read_in x m.old) × (1 ≤ x.progress.blocks) × (x.progress.blocks < 2 ^ 32) × (count_in block.now ≤ 20) × Carried x }
    ensures same { Same m.old m.new }
    ensures judged { JudgedBlock x.progress.blocks (going (λ y. read_in y m.new) result) (judge_later narrow (read_in x m.old) block.now) }
    ensures carried { IfOk result Carried }
{
    let p = x.progress;
    let setting = x.setting;
    let seeds = x.seeds;
    let table = x.table;
    let mut head = x.head;
    let none = Progress { last: 0, ..p };
    let judged = judge_records(setting, table, &seeds, &mut head, m, block, none);
    let q = judged?;
    let progress = Progress {
        blocks: p.blocks + 1,
        records: q.records,
        opened: q.opened,
        last: q.last,
    };
    Ok(Reading {
        progress,
        setting,
        seeds,
        table,
        head,
    })
}
