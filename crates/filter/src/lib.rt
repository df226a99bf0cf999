// The two counting Bloom filters of each bank, for counters of every width (`counter`; `narrow_counter` and `wide_counter` have the two widths). The estimate
// of a row stands here, what an activation adds in `raise` and `count`, what is cleared in `turn`, and what a request turns and reads in `look`.
#![tactic(auto)]

pub mod count;
pub mod counter;
pub mod look;
pub mod narrow_counter;
pub mod raise;
pub mod turn;
pub mod wide_counter;

ghost use Rattle.std.specs.Prelude.{◌≡◌, map, ◌+◌, ◌*◌, ◌<◌, ◌≤◌, length};
ghost use Rattle.rules.specs.Filter.{Within, two, estimate};

use crate::counter::Counter;

// The estimate of a row in filter f: the least of its four counters. part is the bank's own part of the counters.
pub fn estimate<C: Counter>(part: &[C], at: [usize; 4], f: usize) -> C
    requires { (2048 ≤ length part.now) × (f < 2) × Within at }
    ensures { C.value result ≡ estimate (map C.value part.now) 0 f at }
{
    let base = f * 1024;
    let p0 = at[0];
    let p1 = at[1];
    let p2 = at[2];
    let p3 = at[3];
    let left = part[base + p0].least(part[base + p1]);
    let right = part[base + p2].least(part[base + p3]);
    left.least(right)
}

// The estimate of a row of a bank, whose part of the counters starts at bank * 2048.
fn one_estimate<C: Counter>(counters: &[C], bank: usize, at: [usize; 4], f: usize) -> C
    requires { (bank < 16) × (bank * 2048 + 2048 ≤ length counters.now) × (f < 2) × Within at }
    ensures { C.value result ≡ estimate (map C.value counters.now) bank f at }
{
    let start = bank * 2048;
    estimate(&counters[start..start + 2048], at, f)
}

// The same for a row with these places in filter 0 and filter 1.
pub fn bank_estimate<C: Counter>(
    counters: &[C],
    bank: usize,
    at: [usize; 4],
    other: [usize; 4],
    f: usize,
) -> C
    requires { (bank < 16) × (bank * 2048 + 2048 ≤ length counters.now) × (f < 2) × Within at × Within other }
    ensures { C.value result ≡ estimate (map C.value counters.now) bank f (two at other f) }
{
    if f == 0 {
        return one_estimate(counters, bank, at, f);
    }
    one_estimate(counters, bank, other, f)
}
