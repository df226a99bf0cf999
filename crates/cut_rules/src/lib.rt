// A log cut down to records that still differ (document 02, k): definitions in specs/, theorems in proofs/. What holds for any test of what differs stands in
// `selections`. No function stands here.
#![tactic(auto)]

pub mod selections;
