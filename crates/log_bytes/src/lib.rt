// The bytes of one block of a log: little-endian numbers, read and stored, tests of bytes, and the two sums of a block. What the bytes of a block's body mean
// is no part of it.
#![tactic(auto)]

pub mod read;
pub mod store;
pub mod sums;
pub mod tests;
