// The two counting Bloom filters of each bank: what set-up and the turn of an epoch clear.
ghost use Rattle.std.specs.Prelude.{◌≡◌, map, ◌+◌, ◌*◌, ◌<◌, ◌≤◌, ◌^◌, ltb, length};
ghost use Rattle.rules.specs.Cells.{clear_cells};
ghost use Rattle.rules.specs.Clock.{turned_counters};
ghost use Rattle.filter.specs.turn.Changes.{in_run, in_filter};

use crate::counter::Counter;

// Clears the n counters from start on.
fn clear_run<C: Counter>(counters: &mut [C], start: usize, n: usize)
    requires { start + n ≤ length counters.old }
    ensures { map C.value counters.new ≡ clear_cells (in_run start n) (map C.value counters.old) }
{
    for c in &mut counters[start..start + n] {
        *c = C::zero();
    }
}

// Clears the used counters, those of all banks.
pub fn clear<C: Counter>(counters: &mut [C], used: usize)
    requires { used ≤ length counters.old }
    ensures { map C.value counters.new ≡ clear_cells (λ i. ltb i used) (map C.value counters.old) }
{
    clear_run(counters, 0, used);
}

// Clears filter f in all banks.
// Kept: by bank. Tried with chunks_exact_mut(2048); after it a proof knows the length of the counters and not what they hold.
fn clear_filter<C: Counter>(counters: &mut [C], banks: usize, f: usize)
    requires { (banks ≤ 16) × (f < 2) × (banks * 2048 ≤ length counters.old) }
    ensures { map C.value counters.new ≡ clear_cells (in_filter banks f) (map C.value counters.old) }
{
    for b in 0..banks {
        clear_run(counters, b * 2048 + f * 1024, 1024);
    }
}

// Clears what the clock's move from epoch `from` to epoch `to` clears: nothing within an epoch, the filter that was active
// where one epoch has passed, both filters where more have.
pub fn turn<C: Counter>(counters: &mut [C], banks: usize, from: u64, to: u64)
    requires { (banks ≤ 16) × (banks * 2048 ≤ length counters.old) × (from < 2 ^ 63) }
    ensures { map C.value counters.new ≡ turned_counters (banks * 2048) from to (map C.value counters.old) }
{
    if to <= from {
        return;
    }
    if to == from + 1 {
        clear_filter(counters, banks, (from % 2) as usize);
    } else {
        clear(counters, banks * 2048);
    }
}
