// The log writer, for C (by the crate `log_c`) and for Rattle: the calls that write a block of a log (`encode`). What the format can hold is tested by
// `fits`, the bytes are stored by `start`, `write` and `frame`; the format is defined in the crate `log_format`.
#![tactic(auto)]

pub mod encode;
mod fits;
mod frame;
mod start;
mod write;
