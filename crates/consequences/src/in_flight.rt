// Requests in flight, the thread's total over all banks: what is proved of it in every list of calls. There is no code here; `threads::total` computes the
// total.
