// Computed cases of a log cut down (document 02, k): statements in specs/cut/, computed in proofs/cut/.
