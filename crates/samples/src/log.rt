// The sample runs of document 01 for the log checker: statements in specs/log/, computed in proofs/log/.
