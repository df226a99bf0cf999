// The decision on a request and the answer that it becomes, by value: the functions see numbers only. The decision stands here, the answer in `answers`, the
// numbers that C and a log give it in `numbers`.
#![tactic(auto)]

pub mod answers;
pub mod numbers;

ghost use Rattle.std.specs.Prelude.{◌≡◌, ◌+◌, ◌≤◌, ◌<◌, ◌^◌};
ghost use Rattle.rules.specs.Claims.{gap_end, closed_tick};
ghost use Rattle.decision.specs.Numbers.{decide_from};

use rules::{Cause, Decision, Setting};

// What the decision looks at, read from the state turned to the request's tick.
#[derive(Clone, Copy, Debug, PartialEq, Eq)]
pub struct View {
    // The thread's requests in flight, over all banks, and its quota in the bank.
    pub flying: u64,
    pub quota: u64,
    // The stored ticks of the bank's last activation and of the rank's fourth last.
    pub bank: u64,
    pub rank: u64,
    // The row's estimates in the active and in the other filter.
    pub active: u64,
    pub other: u64,
    // The tick from which the history is free of the row, 0 for none that matches.
    pub delay: u64,
    // The end of the epoch.
    pub end: u64,
}

// Kept: 0 for none, since a stored tick is the word of the caller's head (C interface) and `gap_end` and `closed_tick` of rules/specs/Claims.antt say 0.
// The first tick at which a gap after a stored tick is past, 0 for none.
fn gap_end(gap: u64, stored: u64) -> u64
    requires { (gap ≤ 65535) × (stored ≤ 2 ^ 62) }
    ensures { (result ≡ gap_end gap stored) × (result ≤ 2 ^ 62 + 65535) }
{
    if stored == 0 { 0 } else { stored - 1 + gap }
}

// The least tick from t on that bank, rank and row rules allow, by the closed form.
fn wait_tick(s: Setting, v: View, gaps: u64) -> u64
    ensures { result ≡ closed_tick s.n v.end gaps v.delay v.active v.other }
{
    if v.delay <= gaps {
        return gaps;
    }
    if gaps < v.end {
        if v.active < s.n {
            return gaps;
        }
        if v.other < s.n {
            return v.delay.min(v.end);
        }
        return v.delay;
    }
    if v.other < s.n { gaps } else { v.delay }
}

// The first rule that fails names the cause; if all pass, the row is opened.
pub fn decide(s: Setting, t: u64, v: View) -> Decision
    requires { (s.trc ≤ 65535) × (s.tfaw ≤ 65535) × (v.bank ≤ 2 ^ 62) × (v.rank ≤ 2 ^ 62) }
    ensures { result ≡ decide_from s t v }
{
    if v.quota <= v.flying {
        return Decision::OverQuota;
    }
    let bank = gap_end(s.trc, v.bank);
    let rank = gap_end(s.tfaw, v.rank);
    let gaps = t.max(bank.max(rank));
    let until = wait_tick(s, v, gaps);
    if t < bank {
        return Decision::Hold {
            cause: Cause::Bank,
            until,
        };
    }
    if t < rank {
        return Decision::Hold {
            cause: Cause::Rank,
            until,
        };
    }
    if v.active < s.n {
        return Decision::Open;
    }
    if v.delay <= t {
        return Decision::Open;
    }
    Decision::Hold {
        cause: Cause::Row,
        until,
    }
}
