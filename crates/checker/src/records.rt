// The records of a block of a log, one by one up to the first event. The judging of one record and the reading of the block are called only through
// their contracts.
ghost use Rattle.std.specs.Prelude.{◌≡◌, ◌≤◌};
ghost use Rattle.rules.specs.Answers.{none};
ghost use Rattle.rules.specs.Setting.{setting_refusal};
ghost use Rattle.rules.specs.Policy.{limits01, narrow};
ghost use Rattle.rules.specs.Tested.{Sound};
ghost use Rattle.log_format.specs.Contents.{count_in, entries_in};
ghost use Rattle.log_format.specs.Verdict.{judge_records};
ghost use Rattle.hash_rules.specs.Words.{TableFor};
ghost use Rattle.tally.specs.Settled.{Room};
ghost use Rattle.sound.specs.Held.{Same, held};
ghost use Rattle.judge.specs.Follow.{running, Judged};

use head::Head;
use judge::entry::judge_record;
use rules::Setting;
use sound::buffers::Buffers;
use tally::{Progress, Report};

// The records of a block, up to the first event. `table` says that the seeds are the house seeds. Ok: the log goes on with this progress. Err: it is
// over with this report.
pub fn judge_records(
    s: Setting,
    table: bool,
    seeds: &[u16],
    h: &mut Head,
    m: &mut Buffers<'_, u16>,
    block: &[u8; 512],
    p: Progress,
) -> Result<Progress, Report>
    requires { (setting_refusal limits01 s seeds.now ≡ none) × Sound s (held h.old m.old) × Room p 20 × (count_in block.now ≤ 20) × TableFor table seeds.now }
    ensures same { Same m.old m.new }
    ensures judged { Judged s seeds.now p 20 result (held h.new m.new) (judge_records narrow (running p s seeds.now (held h.old m.old)) (entries_in block.now)) }
{
    let n = log_read::contents::count(block) as usize;
    let mut progress = p;
    for k in 0..n {
        let e = log_read::contents::entry_at(block, k);
        progress = judge_record(s, table, seeds, h, m, progress, e)?;
    }
    Ok(progress)
}
