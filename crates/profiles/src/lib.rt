// The profiles of cards, document 02, g: what is proved of a setting's refusals under each of them, and that a setting which the small card
// accepts gets the same decisions on the large one. There is no code here; the crate `setting` makes the tests.
#![tactic(auto)]
