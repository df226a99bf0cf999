// What a change of the rules means for logs: a log of one policy under another one. Statements in specs/policies/, proofs in proofs/policies/; there is no
// code here.
