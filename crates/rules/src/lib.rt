// The types that the rules of document 01 speak of, as plain structs and enums by value; the head is in a crate of its own, with its methods.
// The rules themselves are definitions in specs/, the theorems about them are in proofs/.
#![tactic(auto)]

// The ten numbers of the setting: nine named as in document 01, and the profile mark of document 02, g. The 64 seeds are a buffer beside it.
#[derive(Clone, Copy)]
pub struct Setting {
    // W, the refresh window in ticks.
    pub w: u64,
    // tRC, the least gap of activations in one bank.
    pub trc: u64,
    // tFAW: at most four activations of the rank in any tFAW ticks.
    pub tfaw: u64,
    // N, the blacklisting threshold.
    pub n: u64,
    // tD, the delay of a blacklisted row.
    pub td: u64,
    // L, the most activations of a row in W ticks.
    pub l: u64,
    // Q, the most requests in flight for a thread, over all banks.
    pub q: u64,
    pub banks: u64,
    pub threads: u64,
    // The mark of the card's profile: 0 large, 1 small.
    pub profile: u64,
}

// The limits of the setting that differ from width to width: the greatest N and the greatest H.
#[derive(Clone, Copy)]
pub struct Limits {
    pub threshold: u64,
    pub history: u64,
}

// The limits of a profile of cards: the most banks and the greatest H.
#[derive(Clone, Copy)]
pub struct Profile {
    pub banks: u64,
    pub history: u64,
}

// The rule that a request waits for.
#[derive(Clone, Copy)]
pub enum Cause {
    Bank,
    Rank,
    Row,
}

// The decision on a request, before it is carried out: document 01's opened, wait and quota.
#[derive(Clone, Copy)]
pub enum Decision {
    Open,
    Hold { cause: Cause, until: u64 },
    OverQuota,
}

// The answer to a request. An opened one has the openings left: N less the estimate after the opening.
#[derive(Clone, Copy)]
pub enum Answer {
    Opened { left: u64 },
    Wait { cause: Cause, until: u64 },
    Quota,
}
