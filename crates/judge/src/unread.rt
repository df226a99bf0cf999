// A log of which nothing is read yet: where the checker, its program and a run of a selection of records begin.
ghost use Rattle.std.specs.Prelude.{◌≡◌, List, ℕ};
ghost use Rattle.rules.specs.State.{fresh_head};
ghost use Rattle.rules.specs.Policy.{limits01};
ghost use Rattle.log_format.specs.Verdict.{unread};
ghost use Rattle.judge.specs.Follow.{progress_of};
ghost use Rattle.judge.specs.Blocks.{read_so_far, Carried, Ready};

use crate::reading::Reading;
use head::Head;
use rules::Setting;
use tally::Progress;

// Before the first block. The buffers may hold anything, since block 0 sets the model up in them; 32,768 counters, 4,096 ticks and rows and
// 1,536 thread counters are enough for every setting. The setting and the seeds are not looked at.
pub fn start() -> Reading
    ensures { (progress_of result.progress ≡ (unread limits01).progress) × (result.head ≡ fresh_head) × ((counters : List ℕ) (ticks : List ℕ) (rows : List ℕ) (threads : List ℕ) → Ready (read_so_far result counters ticks rows threads)) × Carried result }
{
    let progress = Progress {
        blocks: 0,
        records: 0,
        opened: 0,
        last: 0,
    };
    let setting = Setting {
        w: 0,
        trc: 0,
        tfaw: 0,
        n: 0,
        td: 0,
        l: 0,
        q: 0,
        banks: 0,
        threads: 0,
        profile: 0,
    };
    let head = Head {
        last: 0,
        next: 0,
        bank: [0; 16],
        rank: [0; 4],
    };
    Reading {
        progress,
        setting,
        seeds: [0; 64],
        table: false,
        head,
    }
}
