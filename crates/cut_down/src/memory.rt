// The work memory of the model.

// As much as any setting needs.
#[derive(Drop)]
pub struct Memory {
    pub counters: [u16; 32768],
    pub ticks: [u64; 4096],
    pub rows: [u32; 4096],
    pub threads: [u32; 1536],
}

// Memory of zeros.
pub fn zeros() -> Memory {
    Memory {
        counters: [0; 32768],
        ticks: [0; 4096],
        rows: [0; 4096],
        threads: [0; 1536],
    }
}
