// The cases of document 01 that are to be proved, and those of document 02's requests: statements in specs/, computed in proofs/cases/.
