// What a call of the C interface finds and leaves, as definitions that the contracts of the exported calls cite; demand 3 of lists of such calls,
// with a change-over between two widths or without. There is no code here.
#![tactic(auto)]
