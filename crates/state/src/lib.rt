// A state that passed the tests, apart from the filters: what functions on it may count on (specs/), and an activation, which stands here. Set-up stands in
// `setup`, the clock in `clock`, what the decision looks at in `view`, the decision, a done and an index reading in `filterless`. No function here knows the
// width of a counter.
#![tactic(auto)]

pub mod clock;
pub mod filterless;
pub mod setup;
mod view;

ghost use Rattle.std.specs.Prelude.{◌≡◌, ◌+◌, ◌<◌, get_or, set};
ghost use Rattle.head.specs.Head.{activated_head};
ghost use Rattle.rules.specs.Setting.{history_length};
ghost use Rattle.rules.specs.State.{thread_cell, row_word};
ghost use Rattle.rules.specs.Decision.{activated_threads};
ghost use Rattle.state.specs.Ready.{Ready};

use head::Head;
use rules::Setting;

// The word of a row in the history: bank x 65,536 + row.
pub fn row_word(bank: u64, row: u16) -> u32
    requires { bank < 16 }
    ensures { result ≡ row_word bank row }
{
    bank as u32 * 65536 + u32::from(row)
}

// An activation at the last tick, apart from the filters: records the row in the history, counts it for the thread, and gives the head.
// black says whether the row was blacklisted.
pub fn activate(
    s: Setting,
    h: Head,
    ticks: &mut [u64],
    rows: &mut [u32],
    threads: &mut [u32],
    bank: u64,
    thread: u64,
    row: u16,
    black: bool,
) -> Head
    requires { Ready s h ticks.old rows.old threads.old bank thread × (get_or threads.old (thread_cell s bank thread 2) 0 < 255) }
    ensures { (result ≡ activated_head (history_length s) h bank) × (ticks.new ≡ set ticks.old h.next (h.last + 1)) × (rows.new ≡ set rows.old h.next (row_word bank row)) × (threads.new ≡ activated_threads s threads.old bank thread black) }
{
    let places = setting::history_length(s);
    history::record(ticks, rows, h.next as usize, h.last, row_word(bank, row));
    threads::activation::activate(threads, s, bank, thread, black);
    h.activated(places as u64, bank as usize)
}
