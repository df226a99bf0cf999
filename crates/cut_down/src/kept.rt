// The records of a log that a selection keeps, judged one after the other up to the first event. The judging of a record and the reading of the log are
// called only through their contracts.
ghost use Rattle.std.specs.Prelude.{◌≡◌, ◌≤◌, length};
ghost use Rattle.rules.specs.Answers.{none};
ghost use Rattle.rules.specs.Setting.{setting_refusal};
ghost use Rattle.rules.specs.Policy.{limits01, narrow};
ghost use Rattle.rules.specs.Tested.{Sound};
ghost use Rattle.log_format.specs.Verdict.{judge_records};
ghost use Rattle.log_format.specs.Claims.{records_of, WellFormed};
ghost use Rattle.sound.specs.Held.{Same, held};
ghost use Rattle.judge.specs.Follow.{running};
ghost use Rattle.judge.specs.Blocks.{Carried};
ghost use Rattle.cut_rules.specs.selections.Selections.{chosen, bits};
ghost use Rattle.cut_rules.specs.Cut.{says_differs};
ghost use Rattle.cut_down.specs.Kept.{none_judged};

use crate::blocks::record_at;
use crate::selection::{is_differing, is_kept};
use judge::entry::judge_record;
use judge::reading::Reading;
use sound::buffers::Buffers;
use tally::Progress;

// The records that stay, on a model that is set up.
pub fn judge_kept(x: Reading, m: &mut Buffers<'_, u16>, bytes: &[u8], n: u64, kept: u64) -> bool
    requires { (setting_refusal limits01 x.setting x.seeds ≡ none) × Sound x.setting (held x.head m.old) × Carried x × WellFormed bytes.now × (n ≡ length (records_of bytes.now)) × (n ≤ 64) }
    ensures same { Same m.old m.new }
    ensures differing { result ≡ says_differs (judge_records narrow (running none_judged x.setting x.seeds (held x.head m.old)) (chosen (bits n kept) (records_of bytes.now))) }
{
    let setting = x.setting;
    let table = x.table;
    let seeds = x.seeds;
    let mut head = x.head;
    let mut progress = Progress {
        blocks: 1,
        records: 0,
        opened: 0,
        last: 0,
    };
    for i in 0..n {
        if !is_kept(kept, i) {
            continue;
        }
        let e = record_at(bytes, i);
        match judge_record(setting, table, &seeds, &mut head, m, progress, e) {
            Ok(counted) => progress = counted,
            Err(report) => return is_differing(report),
        }
    }
    false
}
