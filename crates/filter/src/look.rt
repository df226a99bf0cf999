// The two counting Bloom filters of a bank at a request: turned to its epoch, and the row's estimates read.
ghost use Rattle.std.specs.Prelude.{◌≡◌, map, ◌-◌, ◌*◌, ◌%◌, ◌^◌, ◌≤◌, ◌<◌, length};
ghost use Rattle.rules.specs.Clock.{turned_counters};
ghost use Rattle.rules.specs.Filter.{Within, two, estimate};

use crate::bank_estimate;
use crate::counter::Counter;

// The estimates of a row in the active and in the other filter.
#[derive(Clone, Copy, Debug, PartialEq, Eq)]
pub struct Estimates {
    pub active: u64,
    pub other: u64,
}

// Turns the filters from one epoch to another, and reads the estimates of a row with these places in filter 0 and filter 1 then.
pub fn look<C: Counter>(
    counters: &mut [C],
    banks: usize,
    from: u64,
    to: u64,
    bank: usize,
    first: [usize; 4],
    second: [usize; 4],
) -> Estimates
    requires { (banks ≤ 16) × (banks * 2048 ≤ length counters.old) × (from < 2 ^ 63) × (bank < banks) × Within first × Within second }
    ensures { (map C.value counters.new ≡ turned_counters (banks * 2048) from to (map C.value counters.old)) × (result.active ≡ estimate (map C.value counters.new) bank (to % 2) (two first second (to % 2))) × (result.other ≡ estimate (map C.value counters.new) bank (1 - to % 2) (two first second (1 - to % 2))) }
{
    crate::turn::turn(counters, banks, from, to);
    let f = (to % 2) as usize;
    let active = bank_estimate(&*counters, bank, first, second, f).number();
    let other = bank_estimate(&*counters, bank, first, second, 1 - f).number();
    Estimates { active, other }
}
