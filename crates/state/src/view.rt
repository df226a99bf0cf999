// What the decision on a request looks at, read from a state that passed the tests.
ghost use Rattle.std.specs.Prelude.{◌≡◌, ◌&&◌, cond, ◌≤◌, ◌<◌, ◌^◌, ltb, length, get_or};
ghost use Rattle.rules.specs.Setting.{history_length};
ghost use Rattle.rules.specs.Clock.{epoch};
ghost use Rattle.rules.specs.Policy.{narrow};
ghost use Rattle.rules.specs.Tested.{Memory};
ghost use Rattle.state.specs.Ready.{Bounds, Ready};
ghost use Rattle.decision.specs.Numbers.{delay_end, view_of};

use crate::row_word;
use decision::View;
use head::Head;
use rules::Setting;

// Kept: 0 for none, which `view_of` (decision/specs/Numbers.antt) says.
// The tick from which the history is free of the row. It is looked for only where a filter blacklists the row.
fn delay(
    s: Setting,
    h: Head,
    ticks: &[u64],
    rows: &[u32],
    active: u64,
    other: u64,
    bank: u64,
    row: u16,
) -> u64
    requires { Bounds s × Memory s h ticks.now × (history_length s ≤ length ticks.now) × (history_length s ≤ length rows.now) × (bank < 16) × (h.last < 2 ^ 62) }
    ensures { result ≡ cond (ltb active s.n && ltb other s.n) 0 (delay_end s h ticks.now rows.now bank row) }
{
    if active < s.n && other < s.n {
        return 0;
    }
    let places = setting::history_length(s);
    let found = history::first_match(
        ticks,
        rows,
        places,
        h.next as usize,
        row_word(bank, row),
        h.last,
        s.td,
    );
    history::delay_end(ticks, found, s.td)
}

// Reads the view of a row with these estimates in the active and in the other filter; e is the epoch of the last tick, stored the bank's cell of the
// head. The cell is handed over because an array that is indexed has to lie in memory: a caller that has the head's words reads it there.
pub fn look(
    s: Setting,
    h: Head,
    stored: u64,
    ticks: &[u64],
    rows: &[u32],
    threads: &[u32],
    bank: u64,
    thread: u64,
    row: u16,
    e: u64,
    active: u64,
    other: u64,
) -> View
    requires { Ready s h ticks.now rows.now threads.now bank thread × (e ≡ epoch s h.last) × (stored ≡ get_or h.bank bank 0) }
    ensures { result ≡ view_of narrow s active other h ticks.now rows.now threads.now bank thread row }
{
    let flying = threads::total::total(threads, s, thread);
    let length = s.w / 2;
    let f = (e % 2) as usize;
    let cell = threads::counters::cell(s, bank, thread);
    let c = threads[cell + f];
    let quota = threads::quota::quota(s, c);
    let rank = h.rank;
    let delay = delay(s, h, ticks, rows, active, other, bank, row);
    let end = (e + 1) * length;
    View {
        flying,
        quota,
        bank: stored,
        rank: rank[3],
        active,
        other,
        delay,
        end,
    }
}
