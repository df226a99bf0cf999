// Refusals 8 to 10: the tests of what a call names, its bank, thread and tick, and of what is in flight there.
ghost use Rattle.std.specs.Prelude.{◌≡◌, ◌<◌, ◌≤◌, length, ◌==◌, slice_index};
ghost use Rattle.rules.specs.Answers.{none, none_in_flight, refuse};
ghost use Rattle.refused.specs.Passed.{passed};
ghost use Rattle.rules.specs.State.{threads_used, thread_cell};
ghost use Rattle.refusal.specs.Place.{place_refusal};

use refused::Refusal;
use rules::Setting;

// What a call names.
#[derive(Clone, Copy, Debug, PartialEq, Eq)]
pub struct Named {
    pub tick: u64,
    pub bank: u64,
    pub thread: u64,
}

// Refusals 8 and 9.
#[tactic(auto, unfolding(crate::specs::Place::place_refusal))]
pub fn place_refusal(s: Setting, last: u64, at: Named) -> Result<(), Refusal>
    ensures { result ≡ passed (place_refusal s last at.tick at.bank at.thread) }
{
    if s.banks <= at.bank || s.threads <= at.thread {
        return Err(Refusal::OutsideSetting);
    }
    if at.tick < last || 4611686018427387904 <= at.tick {
        return Err(Refusal::BadTick);
    }
    Ok(())
}

// Refusal 10.
pub fn flying_refusal(s: Setting, threads: &[u32], bank: u64, thread: u64) -> Result<(), Refusal>
    requires { (bank < s.banks) × (thread < s.threads) × (s.banks ≤ 16) × (s.threads ≤ 32) × (threads_used s ≤ length threads.now) }
    ensures { result ≡ passed (refuse (slice_index threads.now (thread_cell s bank thread 2) == 0) none_in_flight none) }
{
    let flight = threads::counters::cell(s, bank, thread) + 2;
    if threads[flight] == 0 {
        return Err(Refusal::NoneInFlight);
    }
    Ok(())
}
