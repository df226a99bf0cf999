// One block of a log, read: what it holds (`contents`) and whether it is sound (`block`). The two tests of a block stand in `log_bytes::sums` and in
// `layout`, with `records`; `slice` copies a block of a whole log. The format is defined in the crate `log_format`.
#![tactic(auto)]

pub mod block;
pub mod contents;
mod layout;
mod records;
pub mod slice;
