// What an activation changes of the thread counters.
ghost use Rattle.std.specs.Prelude.{◌≡◌, ◌≤◌, ◌<◌, ◌^◌, length, get_or};
ghost use Rattle.rules.specs.Setting.{index_scale};
ghost use Rattle.rules.specs.State.{thread_cell, threads_used};
ghost use Rattle.rules.specs.Filter.{raised};
ghost use Rattle.rules.specs.Decision.{activated_threads};

use crate::counters::cell;

// A counter with 1 more, if it is below the limit.
fn raise(c: u32, limit: u32) -> u32
    ensures { result ≡ raised limit c }
{
    if c < limit { c + 1 } else { c }
}

// An activation: one more in flight, and where the row was blacklisted both index counters are raised, up to full scale.
pub fn activate(threads: &mut [u32], s: rules::Setting, bank: u64, thread: u64, black: bool)
    requires { (bank < s.banks) × (thread < s.threads) × (s.banks ≤ 16) × (s.threads ≤ 32) × (threads_used s ≤ length threads.old) × (get_or threads.old (thread_cell s bank thread 2) 0 < 4294967295) × (s.n ≤ s.l) × (index_scale s < 2 ^ 32) }
    ensures { threads.new ≡ activated_threads s threads.old bank thread black }
{
    let at = cell(s, bank, thread);
    threads[at + 2] += 1;
    if black {
        let scale = (s.l - s.n) as u32;
        threads[at] = raise(threads[at], scale);
        threads[at + 1] = raise(threads[at + 1], scale);
    }
}
