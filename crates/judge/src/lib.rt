// A log against the model, part by part: what is read so far (`reading`, `judged`), where a log begins (`unread`), block 0 (`start`) and a record (`entry`).
// A record's call is put to the model, and its answer and wait tick are compared with the reply. The model is called only through its contracts, and each
// step is proved to be the one of the log's definition of the verdict.
#![tactic(auto)]

pub mod entry;
pub mod judged;
pub mod reading;
pub mod start;
pub mod unread;
