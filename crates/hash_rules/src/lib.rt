// The hash by bytes: a row's four hashes in one word, the table's words under the house seeds, and the laws by which a row's hash is the exclusive
// or of the hashes of its two bytes. No function stands here.
#![tactic(auto)]
