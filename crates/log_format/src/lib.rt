// The log of document 01: blocks of 512 bytes. The format, the verdict of a whole log and what the encoder writes are definitions in
// specs/, with the theorems about them in proofs/. The code that reads and writes blocks stands in the crates above.
#![tactic(auto)]

// A record of the log: a call with the answer and the wait tick that it claims.
#[derive(Clone, Copy)]
pub struct Entry {
    pub tick: u64,
    // The wait tick; 0 for answers 0 and 4.
    pub wait: u64,
    pub row: u16,
    pub bank: u64,
    pub thread: u64,
    // 0 request, 1 done.
    pub kind: u64,
    // 0 opened or done, 1 bank, 2 rank, 3 row, 4 quota.
    pub answer: u64,
}
