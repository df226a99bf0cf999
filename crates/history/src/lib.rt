// The history buffer: a ring of h places, lent as two slices. `ticks` holds stored ticks, that is the tick plus one, or 0 for none; `rows` holds row words.
// The next activation is written at place `next`, so the newest one lies before it. The search stands here; the test of the stored ticks (`test`, with
// `runs`) and the changes (`cells`) are exported again.
#![tactic(auto)]

mod cells;
pub mod runs;
mod test;

ghost use Rattle.std.specs.Prelude.{◌≡◌, ◌+◌, ◌^◌, ◌<◌, ◌≤◌, true, length, IfSome, slice_index};
ghost use Rattle.rules.specs.Cells.{every};
ghost use Rattle.rules.specs.History.{not_after, never_rises, find};
ghost use Rattle.history.specs.Found.{place_found, end_of};

use crate::cells::place_before;
pub use crate::cells::{clear, record};
pub use crate::test::{is_not_after, steady};

// The place of the newest activation of the row that is under td ticks old at tick t. The place falls by one from the newest on, from 0 to
// h - 1, as far as the next place, which is the oldest: low is where it stops falling, first 0 and then the next place. A place that is empty
// or too old ends the search: in a history that does not rise, so is every older one.
pub fn first_match(
    ticks: &[u64],
    rows: &[u32],
    h: usize,
    next: usize,
    word: u32,
    t: u64,
    td: u64,
) -> Option<usize>
    requires { (next < h) × (h ≤ length ticks.now) × (h ≤ length rows.now) × (t < 2 ^ 62) × (never_rises h next ticks.now ≡ true) × (every h (λ p. not_after t (slice_index ticks.now p)) ≡ true) }
    ensures { (result ≡ place_found h (find h td next ticks.now rows.now word t)) × IfSome result (λ p. p < h) }
{
    // The greatest stored tick that is td ticks old or more at tick t; 0, that is an empty place, where no tick is that old.
    let limit = (t + 1).saturating_sub(td);
    let mut p = place_before(h, next);
    let mut low: usize = 0;
    // Kept: places counted by hand. A `for` over the two reversed ranges, chained, takes 1.4 times the time for 8 places and twice the time for 888.
    loop {
        if ticks[p] <= limit {
            break None;
        }
        if rows[p] == word {
            break Some(p);
        }
        if p == low {
            if low == next {
                break None;
            }
            low = next;
            p = h;
        }
        p -= 1;
    }
}

// The first tick at which the activation found is td ticks old, 0 where none was found.
pub fn delay_end(ticks: &[u64], found: Option<usize>, td: u64) -> u64
    requires { (td ≤ 2 ^ 29) × IfSome found (λ p. (p < length ticks.now) × (1 ≤ slice_index ticks.now p) × (slice_index ticks.now p ≤ 2 ^ 62 + 1)) }
    ensures { result ≡ end_of ticks.now td found }
{
    match found {
        Some(place) => ticks[place] - 1 + td,
        None => 0,
    }
}
