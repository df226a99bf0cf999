// The worked cases and the sample runs of the specification, computed. There is no code here; the crate stands apart so that a check of `rules`, `log_format`
// or `cut_rules` does not compute them each time.
#![tactic(auto)]

mod cases;
mod cut;
mod log;
