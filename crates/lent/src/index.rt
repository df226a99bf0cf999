// An index reading on the caller's memory but for the filters, for the limits m of any width. It leaves to the filters what its answer says, as a done
// does. It does not know the width of a filter counter: of the counters it takes the length.
ghost use Rattle.std.specs.Prelude.{◌≡◌, List, ℕ, ◌*◌, ◌^◌, ◌≤◌, ◌<◌, length, IfOk};
ghost use Rattle.refused.specs.Numbers.{code_of};
ghost use Rattle.rules.specs.Setting.{setting_of};
ghost use Rattle.rules.specs.Policy.{in_force};
ghost use Rattle.rules.specs.Calls.{index, step};
ghost use Rattle.state.specs.Ready.{WithinWidest};
ghost use Rattle.interface.specs.Left.{left, found, leaves};
ghost use Rattle.lent.specs.Filters.{turned_by};

use crate::done::Clocked;
use crate::words::{load_head, store_clock};
use refusal::{Lent, Named, call_refusal};
use refused::Refusal;
use rules::Limits;
use setting::house_seeds::difference;

// The RowHammer likelihood index of a thread in a bank: out gets c, D and the quota.
pub fn index(
    m: Limits,
    setting: &[u64; 10],
    seeds: &[u16],
    head: &mut [u64; 22],
    counters: usize,
    ticks: &[u64],
    rows: &[u32],
    threads: &mut [u32],
    at: Named,
    out: &mut [u64; 3],
) -> Result<Clocked, Refusal>
    requires { WithinWidest m }
    ensures in_range { IfOk result (λ clocked. (clocked.banks ≤ 16) × (clocked.banks * 2048 ≤ counters) × (clocked.from < 2 ^ 63)) }
    ensures settled { (cs : List ℕ) → length cs ≡ counters → left (code_of result) out.new head.new (turned_by result cs) ticks.now rows.now threads.new ≡ leaves (step (in_force m) (setting_of setting.now) seeds.now (found head.old cs ticks.now rows.now threads.old) (index at.tick at.bank at.thread)) out.old head.old }
{
    let lent = Lent {
        setting,
        seeds,
        differing: difference(seeds),
        head: &*head,
        counters,
        ticks,
        rows: rows.len(),
    };
    call_refusal(m, lent, threads.len(), at)?;
    let s = setting::load(setting);
    let x = state::clock::turn(s, load_head(&*head), threads, at.tick);
    let moved = x.head;
    let y = state::filterless::index(s, &*threads, at.bank, at.thread, x.to);
    store_clock(moved, head);
    *out = [y.c, y.scale, y.quota];
    Ok(Clocked {
        banks: s.banks as usize,
        from: x.from,
        to: x.to,
    })
}
