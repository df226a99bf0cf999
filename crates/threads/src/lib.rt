// The counters of the threads: where a thread's cells are, what an activation, a done and an epoch's turn change of them, the requests in flight over all
// banks, and the quota.
#![tactic(auto)]

pub mod activation;
pub mod counters;
pub mod quota;
pub mod total;
pub mod turn;
