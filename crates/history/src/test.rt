// The test of the stored ticks of the history buffer: none is after the last tick, and none rises from the newest place back.
ghost use Rattle.std.specs.Prelude.{◌≡◌, ◌<◌, ◌≤◌, ◌&&◌, length, slice_index};
ghost use Rattle.rules.specs.Cells.{every};
ghost use Rattle.rules.specs.History.{not_after, never_rises};

use crate::cells::place_before;
use crate::runs::never_falls;

// Whether a stored tick is not after the last tick.
pub fn is_not_after(stored: u64, last: u64) -> bool
    ensures { result ≡ not_after last stored }
{
    stored == 0 || stored - 1 <= last
}

// Whether no stored tick is after the last tick, and none rises from the newest place back. One pass is enough: where none
// rises, the newest tick is the greatest. The cells from `next` on and those before it are two runs, each with its newest
// cell last; the first cell of the run before `next` follows on the last cell of the other.
// The quick test of `never_falls` accepts every block of cells that do not fall and lie less than 2^58 ticks apart, however large
// they are. The exact scan runs only in a block with a fall or with a gap of 2^58 or more. In a call that is answered the ticks are
// below 2^62, so there are at most 16 such gaps and at most 16 blocks are scanned, whatever h is.
pub fn steady(ticks: &[u64], h: usize, next: usize, last: u64) -> bool
    requires { (next < h) × (h ≤ length ticks.now) }
    ensures { result ≡ (every h (λ p. not_after last (slice_index ticks.now p)) && never_rises h next ticks.now) }
{
    let newest = place_before(h, next);
    if !is_not_after(ticks[newest], last) {
        return false;
    }
    if 0 < next {
        if ticks[0] < ticks[h - 1] {
            return false;
        }
        if !never_falls(ticks, 0, next - 1) {
            return false;
        }
    }
    never_falls(ticks, next, h - 1 - next)
}
