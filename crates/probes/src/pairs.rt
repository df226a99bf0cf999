// One pass over what two probes recorded (document 02, i): whether a tick is late, whether the lists have the same length, banks and rows, and the greatest
// and the least difference of the pairs. The definitions that the contracts cite are in the crate `probe_rules` and in specs/.
ghost use Rattle.std.specs.Prelude.{◌≡◌, ◌&&◌, eqb};
ghost use Rattle.std.specs.Cmp.Lexicographic.{pointwise};
ghost use Rattle.std.specs.List.{list_all};
ghost use Rattle.probes.specs.Pairs.{early, pairs_of, records_of};

use crate::lent::Recording;

// What is known of two lists whose ticks are below 2^62: whether they are alike, and the greatest and the least difference of their pairs plus 2^62.
#[derive(Clone, Copy, Debug, PartialEq, Eq)]
pub struct Spread {
    pub alike: bool,
    pub greatest: u64,
    pub least: u64,
}

// Both ticks of a pair are below 2^62.
fn on_time(x: u64, y: u64) -> bool
    ensures { result ≡ (early x && early y) }
{
    x < 4611686018427387904 && y < 4611686018427387904
}

// The lists of rows have the same length, and the same bank and row at each place.
fn same_rows(x: &[u32], y: &[u32]) -> bool
    ensures { result ≡ pointwise eqb x.now y.now }
{
    x == y
}

// The pairs. The pass ends at a late tick.
fn pairs(x: &Recording, y: &Recording) -> Option<Spread>
    ensures { result ≡ pairs_of x.now y.now }
{
    let mut greatest: u64 = 0;
    let mut least: u64 = 9223372036854775808;
    for (first, second) in x.ticks.iter().zip(y.ticks) {
        if !on_time(*first, *second) {
            return None;
        }
        let difference = *second + 4611686018427387904 - *first;
        greatest = greatest.max(difference);
        least = least.min(difference);
    }
    Some(Spread {
        alike: same_rows(x.rows, y.rows),
        greatest,
        least,
    })
}

// These ticks are all below 2^62.
fn all_on_time(ticks: &[u64]) -> bool
    ensures { result ≡ list_all early ticks.now }
{
    ticks.iter().all(|tick| *tick < 4611686018427387904)
}

// All records of both lists: the pairs, and the ticks of the longer list that have no partner; nothing where a tick is late.
pub fn look(x: &Recording, y: &Recording) -> Option<Spread>
    ensures { result ≡ records_of x.now y.now }
{
    let spread = pairs(x, y)?;
    let n = x.ticks.len().min(y.ticks.len());
    if !all_on_time(&x.ticks[n..]) {
        return None;
    }
    if !all_on_time(&y.ticks[n..]) {
        return None;
    }
    Some(spread)
}
