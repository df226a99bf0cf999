// The planner for C: libplan.a. Each call is the function of the same name of the crate `plan`, under the same contract.
#![tactic(auto)]

ghost use Rattle.std.specs.Prelude.{◌≡◌};
ghost use Rattle.rules.specs.Setting.{setting_of};
ghost use Rattle.rules.specs.Policy.{limits01, limits02};
ghost use Rattle.plan_rules.specs.delays.Answer.{delays_of};
ghost use Rattle.plan_rules.specs.spans.Spans.{span_of};
ghost use Rattle.plan.specs.Plan.{left, leaves, leaves_span};

// The delays of the calls with 16-bit counters.
#[unsafe(no_mangle)]
pub extern "C" fn throttle_delays(setting: &[u64; 10], out: &mut [u64; 2]) -> u32
    ensures { left result out.new ≡ leaves (delays_of limits01 (setting_of setting.now)) out.old }
{
    plan::throttle_delays(setting, out)
}

// The delays of the calls with 32-bit counters.
#[unsafe(no_mangle)]
pub extern "C" fn throttle_wide_delays(setting: &[u64; 10], out: &mut [u64; 2]) -> u32
    ensures { left result out.new ≡ leaves (delays_of limits02 (setting_of setting.now)) out.old }
{
    plan::throttle_wide_delays(setting, out)
}

// The most activations of a row in x ticks: 0 and the bound in out, or the number of the refusal, and out as it was.
#[unsafe(no_mangle)]
pub extern "C" fn throttle_span_bound(setting: &[u64; 10], x: u64, out: &mut [u64; 1]) -> u32
    ensures { left result out.new ≡ leaves_span (span_of (setting_of setting.now) x) out.old }
{
    plan::throttle_span_bound(setting, x, out)
}
