// Small parts of cutting a log down, without its memory: the number that selects all records, whether a record stays, and what a report says of
// records. A selection is a number, bit i for record i.
ghost use Rattle.std.specs.Prelude.{◌≡◌, ℕ, ◌^◌, ◌-◌, ◌≤◌, ◌<◌};
ghost use Rattle.cut_rules.specs.selections.Selections.{stays, bits};
ghost use Rattle.cut_down.specs.Kept.{report_differs};

use tally::Report;

// The number that selects all n records.
pub fn all_of(n: u64) -> u64
    requires { n ≤ 64 }
    ensures { result ≡ 2 ^ n - 1 }
{
    if n == 64 {
        return u64::MAX;
    }
    (1u64 << n) - 1
}

// Record i stays.
pub fn is_kept(kept: u64, i: u64) -> bool
    requires { i < 64 }
    ensures { (n : ℕ) → i < n → result ≡ stays (bits n kept) i }
{
    (kept >> i) % 2 == 1
}

// A report says `differs`. A refusal counts as not differing.
pub fn is_differing(report: Report) -> bool
    ensures { result ≡ report_differs report }
{
    matches!(report, Report::Differs { .. })
}
