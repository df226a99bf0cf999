// The delays tD that a setting is accepted with: an answer, and in specs/delays/ what it means and what is claimed of it. The crate `plan` computes it.

// The accepted delays are those from least to greatest.
#[derive(Clone, Copy, Debug, PartialEq, Eq)]
pub struct Delays {
    pub least: u64,
    pub greatest: u64,
}
