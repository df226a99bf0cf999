// One run of a selection: the model is set up anew with the setting and the seeds of block 0, and the records that stay are judged. Set-up and the judging
// are called only through their contracts.
ghost use Rattle.std.specs.Prelude.{◌≡◌, ◌≤◌, length};
ghost use Rattle.rules.specs.Policy.{narrow};
ghost use Rattle.log_format.specs.Claims.{records_of, WellFormed};
ghost use Rattle.cut_rules.specs.selections.Selections.{bits};
ghost use Rattle.cut_rules.specs.Cut.{differs_with};

use crate::kept::judge_kept;
use crate::memory::Memory;
use judge::start::judge_start;
use judge::unread::start;
use log_read::slice::block_at;
use sound::buffers::Buffers;

// Whether the records that stay differ, from set-up on. The memory may hold anything before, and holds anything after.
// It rules out: a run that goes on from the state of the last one, counts a refusal as differing, or judges a record that is left out.
pub fn differs(m: &mut Memory, bytes: &[u8], n: u64, kept: u64) -> bool
    requires { WellFormed bytes.now × (n ≡ length (records_of bytes.now)) × (n ≤ 64) }
    ensures { result ≡ differs_with narrow bytes.now (bits n kept) }
{
    let block = block_at(bytes, 0);
    let mut lent = Buffers {
        counters: &mut m.counters,
        ticks: &mut m.ticks,
        rows: &mut m.rows,
        threads: &mut m.threads,
    };
    match judge_start(start(), &mut lent, &block) {
        Ok(begun) => judge_kept(begun, &mut lent, bytes, n, kept),
        Err(_) => false,
    }
}
