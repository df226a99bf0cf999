// Answers by value: what a decision becomes once it is carried out, and the openings left. The numbers of an answer stand in `numbers`.
ghost use Rattle.std.specs.Prelude.{◌≡◌, ◌-◌};
ghost use Rattle.rules.specs.Decision.{opens, answer_of};

use rules::{Answer, Decision};

// Whether a decision opens the row.
pub fn opens(d: Decision) -> bool
    ensures { result ≡ opens d }
{
    matches!(d, Decision::Open)
}

// The openings left under a threshold n, for the estimate after an opening: never below 0.
pub fn openings_left(n: u64, estimate: u64) -> u64
    ensures { result ≡ n - estimate }
{
    n.saturating_sub(estimate)
}

// The answer to a request with this decision, with the openings left where it opens the row.
pub fn answer(d: Decision, left: u64) -> Answer
    ensures { result ≡ answer_of d left }
{
    match d {
        Decision::Open => Answer::Opened { left },
        Decision::Hold { cause, until } => Answer::Wait { cause, until },
        Decision::OverQuota => Answer::Quota,
    }
}
