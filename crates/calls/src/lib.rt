// The calls on the caller's memory, with filter counters of any width: a request (`request`), and set-up, a done and an index reading (`other_calls`). The
// limits of a width stand in `width`.
#![tactic(auto)]

pub mod other_calls;
pub mod request;
pub mod width;
