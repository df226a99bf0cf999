// Refusal 1: every field of a setting in its range of the table, and its mark that of a profile.
ghost use Rattle.std.specs.Prelude.{◌≡◌, ◌&&◌};
ghost use Rattle.rules.specs.Cells.{between};
ghost use Rattle.rules.specs.Setting.{fields_in_range};

use crate::words::is_known;

// x is from low to high. `&` has no branch: both tests are computed.
fn within(low: u64, high: u64, x: u64) -> bool
    ensures { result ≡ between low high x }
{
    (low <= x) & (x <= high)
}

// The tests before hold, and x is from low to high.
fn and_within(before: bool, low: u64, high: u64, x: u64) -> bool
    ensures { result ≡ (before && between low high x) }
{
    before & within(low, high, x)
}

// Every field is in its range of the table, with the greatest N of these limits, and the mark is that of a profile.
pub fn fields_in_range(m: rules::Limits, s: rules::Setting) -> bool
    ensures { result ≡ fields_in_range m s }
{
    let w = within(2, 1073741824, s.w) & (s.w % 2 == 0);
    let trc = and_within(w, 1, 65535, s.trc);
    let tfaw = and_within(trc, 1, 65535, s.tfaw);
    let n = and_within(tfaw, 1, m.threshold, s.n);
    let td = and_within(n, 1, 536870912, s.td);
    let l = and_within(td, 1, 16777216, s.l);
    let q = and_within(l, 1, 255, s.q);
    let banks = and_within(q, 1, 16, s.banks);
    let threads = and_within(banks, 1, 32, s.threads);
    threads & is_known(s.profile)
}
