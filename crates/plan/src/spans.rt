// Spans of every length (document 02, m): the most activations of a row in x successive ticks under a setting, or the refusal that it gets. The definitions
// that the contracts cite are in `plan_rules::spans` and in the crate `rules`, with the statements of what they mean.
ghost use Rattle.std.specs.Prelude.{◌≡◌, ◌≤◌};
ghost use Rattle.rules.specs.Claims.{free_most, span_bound};
ghost use Rattle.plan_rules.specs.spans.Spans.{Room, span_of};

use refused::Refusal;

// F, the most activations that the row rule lets pass without a delay: at most m epochs meet the span.
fn free_most(s: rules::Setting, x: u64) -> u64
    requires { Room s × (1 ≤ x) }
    ensures { result ≡ free_most s x }
{
    let m = (x - 1).div_ceil(s.w / 2) + 1;
    s.n * m.div_ceil(2)
}

// The bound for x ticks.
fn span_bound(s: rules::Setting, x: u64) -> u64
    requires { Room s × (1 ≤ x) }
    ensures { result ≡ span_bound s x }
{
    let free = free_most(s, x);
    let ticks = free * s.trc;
    if ticks <= x - 1 {
        return free + 1 + (x - 1 - ticks) / s.td;
    }
    1 + (x - 1) / s.trc
}

// The bound for x ticks, or the refusal of the setting at the limits of the calls with 32-bit counters.
pub fn span(s: rules::Setting, x: u64) -> Result<u64, Refusal>
    ensures { result ≡ span_of s x }
{
    if x == 0 {
        return Err(Refusal::OutOfRange);
    }
    match crate::interval::delay_refusal(setting::wide_limits(), s, s.td) {
        Ok(()) => Ok(span_bound(s, x)),
        Err(refusal) => Err(refusal),
    }
}
