// A done on the caller's memory but for the filters, for the limits m of any width. It leaves to the filters what its answer says: to be turned from one
// epoch to another; nothing where the call is refused. It does not know the width of a filter counter: of the counters it takes the length.
ghost use Rattle.std.specs.Prelude.{◌≡◌, List, [], ℕ, ◌*◌, ◌^◌, ◌≤◌, ◌<◌, length, IfOk};
ghost use Rattle.refused.specs.Numbers.{code_of};
ghost use Rattle.rules.specs.Setting.{setting_of};
ghost use Rattle.rules.specs.Policy.{in_force};
ghost use Rattle.rules.specs.Calls.{done, step};
ghost use Rattle.state.specs.Ready.{WithinWidest};
ghost use Rattle.interface.specs.Left.{left, found, leaves};
ghost use Rattle.lent.specs.Filters.{turned_by};

use crate::words::{load_head, store_clock};
use refusal::{Lent, Named, done_refusal};
use refused::Refusal;
use rules::Limits;
use setting::house_seeds::difference;

// How many banks' filters are to be turned, and from which epoch to which.
#[derive(Clone, Copy, Debug, PartialEq, Eq)]
pub struct Clocked {
    pub banks: usize,
    pub from: u64,
    pub to: u64,
}

// A request done: one less in flight for the thread in the bank.
pub fn done(
    m: Limits,
    setting: &[u64; 10],
    seeds: &[u16],
    head: &mut [u64; 22],
    counters: usize,
    ticks: &[u64],
    rows: &[u32],
    threads: &mut [u32],
    at: Named,
) -> Result<Clocked, Refusal>
    requires { WithinWidest m }
    ensures in_range { IfOk result (λ clocked. (clocked.banks ≤ 16) × (clocked.banks * 2048 ≤ counters) × (clocked.from < 2 ^ 63)) }
    ensures settled { (cs : List ℕ) → length cs ≡ counters → left (code_of result) [] head.new (turned_by result cs) ticks.now rows.now threads.new ≡ leaves (step (in_force m) (setting_of setting.now) seeds.now (found head.old cs ticks.now rows.now threads.old) (done at.tick at.bank at.thread)) [] head.old }
{
    let lent = Lent {
        setting,
        seeds,
        differing: difference(seeds),
        head: &*head,
        counters,
        ticks,
        rows: rows.len(),
    };
    done_refusal(m, lent, &*threads, at)?;
    let s = setting::load(setting);
    let x = state::filterless::done(s, load_head(&*head), threads, at.tick, at.bank, at.thread);
    let moved = x.head;
    store_clock(moved, head);
    Ok(Clocked {
        banks: s.banks as usize,
        from: x.from,
        to: x.to,
    })
}
