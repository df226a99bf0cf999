// What set-up, a request, a done and an index reading do with the caller's memory, but for the filters, for the limits of any width; and how the head lies in
// the caller's words. No function here knows the width of a filter counter.
#![tactic(auto)]

pub mod done;
pub mod index;
pub mod request;
pub mod setup;
pub mod words;
