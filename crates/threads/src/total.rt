// The requests of a thread in flight, over all banks of the setting: what the rule of the quota looks at.
ghost use Rattle.std.specs.Prelude.{◌≡◌, ◌≤◌, ◌<◌, length};
ghost use Rattle.rules.specs.Cells.{sum_below};
ghost use Rattle.rules.specs.State.{threads_used};
ghost use Rattle.rules.specs.Quota.{in_flight_here};

use crate::counters::cell;

// The sum of the thread's counts in the banks of the setting. 64 bits hold the sum of any cells.
pub fn total(threads: &[u32], s: rules::Setting, thread: u64) -> u64
    requires { (thread < s.threads) × (s.banks ≤ 16) × (s.threads ≤ 32) × (threads_used s ≤ length threads.now) }
    ensures { result ≡ sum_below s.banks (λ b. in_flight_here s threads.now b thread) }
{
    let mut sum: u64 = 0;
    for bank in 0..s.banks {
        sum += u64::from(threads[cell(s, bank, thread) + 2]);
    }
    sum
}
