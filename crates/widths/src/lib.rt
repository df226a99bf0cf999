// The two widths of the filter counters, document 02, a: the change-over from 16 to 32 bits, and what is proved of it and of the new width.
// There is no code here.
#![tactic(auto)]
