// The four buffers that a caller lends the model, in one struct, for filter counters of any width. The other functions take it as `&mut Buffers`, and promise
// that each field is still the same buffer (`Same`).

#[derive(Drop)]
pub struct Buffers<'a, C> {
    // The counters of the filters of all banks.
    pub counters: &'a mut [C],
    // The history buffer: stored ticks and row words.
    pub ticks: &'a mut [u64],
    pub rows: &'a mut [u32],
    // The thread counters.
    pub threads: &'a mut [u32],
}
