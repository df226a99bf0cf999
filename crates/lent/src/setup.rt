// Set-up on the caller's memory but for the filters, for the limits m of any width. It leaves to the filters what its answer says: to clear their used
// counters; nothing where the call is refused. It does not know the width of a filter counter: of the counters it takes the length.
ghost use Rattle.std.specs.Prelude.{◌≡◌, List, [], ℕ, ◌≤◌, length, IfOk};
ghost use Rattle.refused.specs.Numbers.{code_of};
ghost use Rattle.rules.specs.Setting.{setting_of};
ghost use Rattle.rules.specs.Calls.{setup};
ghost use Rattle.state.specs.Ready.{WithinWidest};
ghost use Rattle.interface.specs.Left.{left, found, leaves};
ghost use Rattle.lent.specs.Filters.{cleared_by};

use crate::words::store_head;
use refusal::{Lent, lent_refusal};
use refused::Refusal;
use rules::Limits;
use setting::house_seeds::difference;

// Set-up: clears the head and the used parts of history and thread counters. It gives the number of the counters that are to be cleared.
pub fn setup(
    m: Limits,
    setting: &[u64; 10],
    seeds: &[u16],
    head: &mut [u64; 22],
    counters: usize,
    ticks: &mut [u64],
    rows: &mut [u32],
    threads: &mut [u32],
) -> Result<usize, Refusal>
    requires { WithinWidest m }
    ensures in_range { IfOk result (λ used. used ≤ counters) }
    ensures settled { (cs : List ℕ) → length cs ≡ counters → left (code_of result) [] head.new (cleared_by result cs) ticks.new rows.new threads.new ≡ leaves (setup m (setting_of setting.now) seeds.now (found head.old cs ticks.old rows.old threads.old)) [] head.old }
{
    let lent = Lent {
        setting,
        seeds,
        differing: difference(seeds),
        head: &*head,
        counters,
        ticks: &*ticks,
        rows: rows.len(),
    };
    lent_refusal(m, lent, threads.len(), false)?;
    let s = setting::load(setting);
    store_head(state::setup::fresh(s, ticks, rows, threads), head);
    Ok((s.banks * 2048) as usize)
}
