// Selections of records (document 02, k): leaving out records while what is left still differs, for any test of what differs, and the number that a
// selection is answered as. No function stands here.
