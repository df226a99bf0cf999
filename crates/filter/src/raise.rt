// What an activation adds to one counting Bloom filter of its bank, and the row's estimate there after it.
ghost use Rattle.std.specs.Prelude.{◌≡◌, map, ◌+◌, ◌*◌, ◌<◌, ◌≤◌, length};
ghost use Rattle.rules.specs.State.{counter_cell};
ghost use Rattle.rules.specs.Filter.{Within, estimate};
ghost use Rattle.filter.specs.raise.Changes.{raised_at};

use crate::counter::Counter;

// Adds 1 to each distinct counter of a row in filter f of a bank, if it is below n, and reports the row's estimate then. All four are read before one is
// stored, so that a counter which two places share is stored twice with the same value.
pub fn count_in<C: Counter>(counters: &mut [C], bank: usize, f: usize, at: [usize; 4], n: C) -> C
    requires { (bank < 16) × (f < 2) × (bank * 2048 + 2048 ≤ length counters.old) × Within at }
    ensures { (map C.value counters.new ≡ raised_at (C.value n) (map (counter_cell bank f) at) (map C.value counters.old)) × (C.value result ≡ estimate (map C.value counters.new) bank f at) }
{
    let base = bank * 2048 + f * 1024;
    let a0 = base + at[0];
    let a1 = base + at[1];
    let a2 = base + at[2];
    let a3 = base + at[3];
    let v0 = counters[a0].raise(n);
    let v1 = counters[a1].raise(n);
    let v2 = counters[a2].raise(n);
    let v3 = counters[a3].raise(n);
    counters[a3] = v3;
    counters[a2] = v2;
    counters[a1] = v1;
    counters[a0] = v0;
    v0.least(v1).least(v2.least(v3))
}
