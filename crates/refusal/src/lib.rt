// Refusals 1 to 10 and 16 of the calls, in their order, for any limits of the setting. What they look at stands in `lent`, the tests in `lengths`, in
// `memory` with `head_ticks`, and in `place`. No function here knows the width of a filter counter.
#![tactic(auto)]

mod head_ticks;
mod lengths;
mod lent;
mod memory;
mod place;

ghost use Rattle.std.specs.Prelude.{◌≡◌, ◌^◌, ◌≤◌};
ghost use Rattle.refused.specs.Passed.{passed};
ghost use Rattle.rules.specs.Setting.{setting_of};
ghost use Rattle.rules.specs.State.{head_of};
ghost use Rattle.refusal.specs.Tests.{lent_test, call_test, done_test};

use crate::memory::memory_ok;
use refused::Refusal;
use rules::Limits;

// For callers that need no other test.
pub use crate::lengths::setup_refusal;
pub use crate::lent::Lent;
pub use crate::place::{Named, flying_refusal, place_refusal};

// Refusals 1 to 5, 16, 6 and, where the call keeps what the memory holds, 7. The setting and the head are read where the caller lent them.
pub fn lent_refusal(m: Limits, lent: Lent<'_>, threads: usize, keeps: bool) -> Result<(), Refusal>
    requires { m.threshold ≤ 2 ^ 20 }
    ensures { result ≡ passed (lent_test m (setting_of lent.entry.setting.now) lent.entry.seeds.now (head_of lent.entry.head.now) lent.entry.counters lent.entry.ticks.now lent.entry.rows threads keeps) }
{
    let s = setting::load(lent.setting);
    setup_refusal(
        m,
        s,
        lent.differing,
        lent.seeds,
        lent.counters,
        lent.ticks.len(),
        lent.rows,
        threads,
    )?;
    if keeps && !memory_ok(s, lent.head, lent.ticks, setting::history_length(s)) {
        return Err(Refusal::BadMemory);
    }
    Ok(())
}

// Refusals 1 to 9 and 16 of a call with a tick, a bank and a thread.
pub fn call_refusal(m: Limits, lent: Lent<'_>, threads: usize, at: Named) -> Result<(), Refusal>
    requires { m.threshold ≤ 2 ^ 20 }
    ensures { result ≡ passed (call_test m (setting_of lent.entry.setting.now) lent.entry.seeds.now (head_of lent.entry.head.now) lent.entry.counters lent.entry.ticks.now lent.entry.rows threads at.tick at.bank at.thread) }
{
    lent_refusal(m, lent, threads, true)?;
    place_refusal(setting::load(lent.setting), lent.head[0], at)
}

// Refusals 1 to 10 and 16 of a done.
pub fn done_refusal(m: Limits, lent: Lent<'_>, threads: &[u32], at: Named) -> Result<(), Refusal>
    requires { m.threshold ≤ 2 ^ 20 }
    ensures { result ≡ passed (done_test m (setting_of lent.entry.setting.now) lent.entry.seeds.now (head_of lent.entry.head.now) lent.entry.counters lent.entry.ticks.now lent.entry.rows threads.now at.tick at.bank at.thread) }
{
    call_refusal(m, lent, threads.len(), at)?;
    flying_refusal(setting::load(lent.setting), threads, at.bank, at.thread)
}
