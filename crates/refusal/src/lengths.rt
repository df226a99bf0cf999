// Refusals 1 to 5, 16 and 6: of the setting and its seeds, and of buffers that are too short for it. No function here knows the width of a filter counter.
ghost use Rattle.std.specs.Prelude.{◌≡◌, ◌^◌, ◌≤◌};
ghost use Rattle.refused.specs.Passed.{passed};
ghost use Rattle.rules.specs.Setting.{history_length};
ghost use Rattle.setting.specs.Differing.{Differing};
ghost use Rattle.refusal.specs.Lengths.{short_test, setup_test};

use refused::Refusal;
use rules::{Limits, Setting};

// Whether one of the buffers, given by its length, is too short.
#[tactic(auto, unfolding(crate::specs::Lengths::short_test))]
fn too_short(
    s: Setting,
    places: usize,
    counters: usize,
    ticks: usize,
    rows: usize,
    threads: usize,
) -> bool
    requires { (s.banks ≤ 16) × (s.threads ≤ 32) × (places ≡ history_length s) }
    ensures { result ≡ short_test s counters ticks rows threads }
{
    (counters as u64) < s.banks * 2048
        || ticks < places
        || rows < places
        || (threads as u64) < s.banks * s.threads * 3
}

// Refusals 1 to 6 and 16. Of the buffers it takes the lengths, of the seeds the bits in which they differ from the house seeds.
pub fn setup_refusal(
    m: Limits,
    s: Setting,
    differing: u16,
    seeds: &[u16],
    counters: usize,
    ticks: usize,
    rows: usize,
    threads: usize,
) -> Result<(), Refusal>
    requires { (m.threshold ≤ 2 ^ 20) × Differing differing seeds.now }
    ensures { result ≡ passed (setup_test m s seeds.now counters ticks rows threads) }
{
    setting::refusal(m, s, differing, seeds)?;
    let places = setting::history_length(s);
    if too_short(s, places, counters, ticks, rows, threads) {
        return Err(Refusal::ShortBuffer);
    }
    Ok(())
}
