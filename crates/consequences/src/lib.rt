// What follows from the rules and is used by no other crate: requests in flight over all banks, the order of openings, and what a change of the rules means
// for logs. There is no code here.
#![tactic(auto)]

mod in_flight;
mod order;
mod policies;
