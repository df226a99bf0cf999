// What the planner answers and what is claimed of it: the delays of a setting, and the bound for a span. Delays are a type here, a bound is a number, and
// either answer is a refusal where there is none. Definitions are in specs/, theorems in proofs/. No function stands here.
#![tactic(auto)]

pub mod delays;
