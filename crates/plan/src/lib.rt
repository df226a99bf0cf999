// The planner, and its calls for C, which the crate `plan_c` exports: which delays tD a setting is accepted with, at each width of the filter counters, and
// how often a row can be activated in a span of ticks; the last threshold that has a delay; and what a setting costs (`costs`). The delays are those of
// `interval`, with `ends`, the bound that of `spans`.
#![tactic(auto)]

pub mod costs;
mod ends;
pub mod interval;
pub mod spans;
mod width;

ghost use Rattle.std.specs.Prelude.{◌≡◌};
ghost use Rattle.rules.specs.Setting.{setting_of};
ghost use Rattle.refused.specs.Numbers.{code_of};
ghost use Rattle.rules.specs.Policy.{limits01, limits02};
ghost use Rattle.plan_rules.specs.delays.Delays.{with_threshold};
ghost use Rattle.plan_rules.specs.delays.Answer.{delays_of};
ghost use Rattle.plan.specs.Served.{Served};
ghost use Rattle.plan.specs.Costs.{width_of};
ghost use Rattle.plan_rules.specs.spans.Spans.{span_of};
ghost use Rattle.plan.specs.Plan.{has_delay, Last, left, leaves, leaves_span};

use refused::Refusal;

// Some delay is accepted with this threshold.
#[tactic(auto, unfolding(crate::specs::Plan::has_delay))]
fn has_delay(m: rules::Limits, s: rules::Setting, n: u64) -> bool
    requires { Served m }
    ensures { result ≡ has_delay m (with_threshold s n) }
{
    crate::interval::delays(m, crate::interval::with_threshold(s, n)).is_ok()
}

// Kept: 0 where none has, which is no threshold, so that a table goes on with the one after it; `Last` of specs/Plan.antt says it.
// The last threshold within the limits that has an accepted delay, or 0 where none has.
pub fn last_threshold(m: rules::Limits, s: rules::Setting) -> u64
    requires { Served m }
    ensures { Last m s result }
{
    for n in (1..=m.threshold).rev() {
        if has_delay(m, s, n) {
            return n;
        }
    }
    0
}

// The delays at the limits of a width: the least and the greatest in out; or the refusal, and out as it was.
fn write_delays(wide: bool, setting: &[u64; 10], out: &mut [u64; 2]) -> Result<(), Refusal>
    ensures { left (code_of result) out.new ≡ leaves (delays_of (width_of wide).limits (setting_of setting.now)) out.old }
{
    let width = crate::costs::width_of(wide);
    let delays = crate::interval::delays(width.limits, setting::load(setting))?;
    *out = [delays.least, delays.greatest];
    Ok(())
}

// The delays of the calls with 16-bit counters.
// It rules out: an end that is off by one, an interval that leaves out an accepted delay, a refusal where a delay is accepted, a delay that the
// profile excludes, the limits of the other width.
pub fn throttle_delays(setting: &[u64; 10], out: &mut [u64; 2]) -> u32
    ensures { left result out.new ≡ leaves (delays_of limits01 (setting_of setting.now)) out.old }
{
    refused::code(write_delays(false, setting, out))
}

// The delays of the calls with 32-bit counters. It rules out the same.
pub fn throttle_wide_delays(setting: &[u64; 10], out: &mut [u64; 2]) -> u32
    ensures { left result out.new ≡ leaves (delays_of limits02 (setting_of setting.now)) out.old }
{
    refused::code(write_delays(true, setting, out))
}

// The most activations of a row in x ticks, in out; or the refusal, and out as it was.
fn write_span_bound(setting: &[u64; 10], x: u64, out: &mut [u64; 1]) -> Result<(), Refusal>
    ensures { left (code_of result) out.new ≡ leaves_span (span_of (setting_of setting.now) x) out.old }
{
    let times = crate::spans::span(setting::load(setting), x)?;
    *out = [times];
    Ok(())
}

// The most activations of a row in x ticks: 0 and the bound in out, or the number of the refusal, and out as it was.
// It rules out: the bound of another span or of another setting, x 0 answered, a refusal that is another or at the limits of 16-bit counters, a
// refusal that writes.
pub fn throttle_span_bound(setting: &[u64; 10], x: u64, out: &mut [u64; 1]) -> u32
    ensures { left result out.new ≡ leaves_span (span_of (setting_of setting.now) x) out.old }
{
    refused::code(write_span_bound(setting, x, out))
}
