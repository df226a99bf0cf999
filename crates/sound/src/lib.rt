// The calls for callers in Rattle that own their memory, such as a log checker: set-up, and request and done on a state that passed the tests of refusals 1
// to 7 and 16, which each call keeps. Only bank, thread, tick and what is in flight are tested, so no call reads the whole history. Done stands here; set-up
// (`set_up`) and request (`requested`) are exported again. `buffers` has the lent memory, `tested` is the request behind the tests, `told` what a call tells.
#![tactic(auto)]

pub mod buffers;
mod requested;
mod set_up;
pub mod tested;
mod told;

ghost use Rattle.std.specs.Prelude.{◌≡◌};
ghost use Rattle.rules.specs.Answers.{none};
ghost use Rattle.rules.specs.Setting.{setting_refusal};
ghost use Rattle.rules.specs.State.{state};
ghost use Rattle.rules.specs.Policy.{limits01, narrow};
ghost use Rattle.rules.specs.Tested.{Sound};
ghost use Rattle.rules.specs.Calls.{done, step};
ghost use Rattle.sound.specs.Told.{Over};

pub use crate::requested::request;
pub use crate::set_up::setup;
use head::Head;
pub use refusal::Named;
use refusal::{flying_refusal, place_refusal};
use refused::Refusal;
use rules::Setting;

// A request done: one less in flight.
// Kept: four slices and no `Buffers`, which would ask for more than reading of ticks and rows (what may not change: the types that this function takes).
#[tactic(auto, using(crate::proofs::told::Tells::done_number, crate::proofs::told::Tells::done_stands))]
pub fn done(
    s: Setting,
    seeds: &[u16],
    h: &mut Head,
    counters: &mut [u16],
    ticks: &[u64],
    rows: &[u32],
    threads: &mut [u32],
    at: Named,
) -> Result<(), Refusal>
    requires { (setting_refusal limits01 s seeds.now ≡ none) × Sound s (state h.old counters.old ticks.now rows.now threads.old) }
    ensures { Over s result (state h.new counters.new ticks.now rows.now threads.new) (step narrow s seeds.now (state h.old counters.old ticks.now rows.now threads.old) (done at.tick at.bank at.thread)) }
{
    place_refusal(s, h.last, at)?;
    flying_refusal(s, &*threads, at.bank, at.thread)?;
    let x = state::filterless::done(s, *h, threads, at.tick, at.bank, at.thread);
    filter::turn::turn(counters, s.banks as usize, x.from, x.to);
    *h = x.head;
    Ok(())
}
