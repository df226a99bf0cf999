// The setting and its seeds: refusals 1 to 5 and 16 in their order. The tests of the setting stand in `fields` and `bounds`, the pass over the seeds in
// `house_seeds`; the ten words, the limits (both in `words`) and the length of the history buffer are exported again. The definitions that the contracts cite
// are in the crate `rules` and in specs/Differing.antt.
#![tactic(auto)]

mod bounds;
mod fields;
pub mod house_seeds;
pub mod words;

ghost use Rattle.std.specs.Prelude.{◌≡◌, ◌^◌, ◌≤◌};
ghost use Rattle.refused.specs.Passed.{passed};
ghost use Rattle.rules.specs.Setting.{setting_refusal};
ghost use Rattle.setting.specs.Differing.{Differing};

pub use crate::bounds::history_length;
use crate::bounds::{above_limit, above_profile, bad_delay, short_window};
use crate::fields::fields_in_range;
pub use crate::words::{load, narrow_limits, profile, wide_limits};
use refused::Refusal;

// The first of refusals 1 to 5 and 16 that the setting meets, with these limits. differing has the bits in
// which the seeds differ from the house seeds; the seeds themselves are named by the contract only.
pub fn refusal(
    m: rules::Limits,
    s: rules::Setting,
    differing: u16,
    seeds: &[u16],
) -> Result<(), Refusal>
    requires { (m.threshold ≤ 2 ^ 20) × Differing differing seeds.now }
    ensures { result ≡ passed (setting_refusal m s seeds.now) }
{
    let in_range = fields_in_range(m, s) & (differing <= 1023);
    if !in_range {
        return Err(Refusal::OutOfRange);
    }
    let window = short_window(s);
    let delay = bad_delay(s);
    if window {
        return Err(Refusal::ShortWindow);
    }
    if delay {
        return Err(Refusal::BadDelay);
    }
    let length = history_length(s) as u64;
    if m.history < length {
        return Err(Refusal::LongHistory);
    }
    let limit = above_limit(s);
    let card = above_profile(profile(s.profile), s.banks, length);
    if limit {
        return Err(Refusal::AboveLimit);
    }
    if card {
        return Err(Refusal::AboveProfile);
    }
    Ok(())
}
