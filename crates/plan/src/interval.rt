// The delays tD that a setting is accepted with, from the least to the greatest, or the refusal that stands in the way. The functions take the limits of a
// width of the counters. The definitions that the contracts cite are in specs/Served.antt and in `plan_rules::delays`, with the statements of what they mean.
ghost use Rattle.std.specs.Prelude.{◌≡◌, ◌-◌, ◌*◌, ◌^◌, ◌≤◌, ◌<◌};
ghost use Rattle.refused.specs.Passed.{passed};
ghost use Rattle.plan_rules.specs.delays.Delays.{with_delay, with_threshold, delay_refusal};
ghost use Rattle.plan_rules.specs.delays.Answer.{delays_above, delays_of};
ghost use Rattle.plan.specs.Served.{Served};
ghost use Rattle.plan.specs.Plan.{early};

use crate::ends::{delays_within, greatest_delay, smallest_delay};
use plan_rules::delays::Delays;
use refused::Refusal;
use setting::house_seeds::difference;

// The setting with another delay.
pub fn with_delay(s: rules::Setting, td: u64) -> rules::Setting
    ensures { result ≡ with_delay s td }
{
    rules::Setting { td, ..s }
}

// The setting with another threshold.
pub fn with_threshold(s: rules::Setting, n: u64) -> rules::Setting
    ensures { result ≡ with_threshold s n }
{
    rules::Setting { n, ..s }
}

// The refusal that the setting gets with this delay.
pub fn delay_refusal(m: rules::Limits, s: rules::Setting, td: u64) -> Result<(), Refusal>
    requires { Served m }
    ensures { result ≡ passed (delay_refusal m s td) }
{
    let seeds = [0u16; 64];
    let differing = difference(&seeds);
    setting::refusal(m, with_delay(s, td), differing, &seeds)
}

// The delays of a setting whose other fields are in range, with room for two bursts in the window and L above 2N.
fn delays_above(m: rules::Limits, s: rules::Setting) -> Result<Delays, Refusal>
    requires { Served m × (1 ≤ s.w) × (s.w ≤ 2 ^ 30) × (2 * s.n * s.trc ≤ s.w - 1) × (2 * s.n < s.l) × (s.n ≤ 2 ^ 20) × (s.tfaw ≤ 65535) }
    ensures { result ≡ delays_above m s }
{
    let smallest = smallest_delay(s);
    let least = s.trc.max(smallest);
    let greatest = greatest_delay(m, s);
    if least <= greatest {
        return delays_within(m, s, least, greatest);
    }
    // In range it is refused, since the least delay is above the greatest.
    if smallest <= 536870912 {
        delay_refusal(m, s, smallest)?;
    }
    Err(Refusal::AboveLimit)
}

// Refusals 1 and 2, which do not depend on the delay, as long as that is in range.
fn early_refusal(m: rules::Limits, s: rules::Setting) -> Result<(), Refusal>
    requires { Served m }
    ensures { result ≡ early (delay_refusal m s 1) }
{
    if let Err(why) = delay_refusal(m, s, 1) {
        if why == Refusal::OutOfRange || why == Refusal::ShortWindow {
            return Err(why);
        }
    }
    Ok(())
}

// The delays that the setting is accepted with. The delay that stands in it plays no part.
pub fn delays(m: rules::Limits, s: rules::Setting) -> Result<Delays, Refusal>
    requires { Served m }
    ensures { result ≡ delays_of m s }
{
    early_refusal(m, s)?;
    if s.l <= 2 * s.n {
        return Err(Refusal::AboveLimit);
    }
    delays_above(m, s)
}
