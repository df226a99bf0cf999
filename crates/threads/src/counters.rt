// The thread counters: for each bank and thread two index counters and the number in flight, three cells of 32 bits together. Where a thread's cells are, and
// what a done changes; an activation stands in `activation`, an epoch's turn in `turn`. The definitions that the contracts cite are those of the crate
// `rules`.
ghost use Rattle.std.specs.Prelude.{◌≡◌, ◌+◌, ◌-◌, ◌≤◌, ◌<◌, length, get_or, set};
ghost use Rattle.rules.specs.State.{thread_cell, threads_used};

// The first of a thread's three cells in a bank.
pub fn cell(s: rules::Setting, bank: u64, thread: u64) -> usize
    requires { (bank < s.banks) × (thread < s.threads) × (s.banks ≤ 16) × (s.threads ≤ 32) }
    ensures { (result ≡ thread_cell s bank thread 0) × (result + 3 ≤ threads_used s) }
{
    ((bank * s.threads + thread) * 3) as usize
}

// A request done: one less in flight.
pub fn finish(threads: &mut [u32], s: rules::Setting, bank: u64, thread: u64)
    requires { (bank < s.banks) × (thread < s.threads) × (s.banks ≤ 16) × (s.threads ≤ 32) × (threads_used s ≤ length threads.old) × (1 ≤ get_or threads.old (thread_cell s bank thread 2) 0) }
    ensures { threads.new ≡ set threads.old (thread_cell s bank thread 2) (get_or threads.old (thread_cell s bank thread 2) 0 - 1) }
{
    let flight = cell(s, bank, thread) + 2;
    threads[flight] -= 1;
}
