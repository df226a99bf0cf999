// What an activation adds to the two counting Bloom filters of its bank, and the row's estimate after it.
ghost use Rattle.std.specs.Prelude.{◌≡◌, map, ◌+◌, ◌*◌, ◌<◌, ◌≤◌, length};
ghost use Rattle.rules.specs.Filter.{Within, two, estimate, counted};

use crate::counter::Counter;
use crate::raise::count_in;

// Counts an activation of the row with these places in filter 0 and filter 1 of its bank, and reports the row's estimate in filter f after it.
pub fn count<C: Counter>(
    counters: &mut [C],
    bank: usize,
    at: [usize; 4],
    other: [usize; 4],
    n: C,
    f: usize,
) -> C
    requires { (bank < 16) × (bank * 2048 + 2048 ≤ length counters.old) × (f < 2) × Within at × Within other }
    ensures { (map C.value counters.new ≡ counted (C.value n) bank (two at other) (map C.value counters.old)) × (C.value result ≡ estimate (map C.value counters.new) bank f (two at other f)) }
{
    let first = count_in(counters, bank, 0, at, n);
    let second = count_in(counters, bank, 1, other, n);
    if f == 0 { first } else { second }
}
