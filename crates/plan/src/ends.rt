// Where the delays tD that a setting is accepted with begin and end: the smallest with B at most L, the greatest that the epoch and the history allow, and
// those of them that the profile which the setting names accepts. The definitions are those of `plan_rules::delays`; specs/Served.antt has the limits that
// are served.
ghost use Rattle.std.specs.Prelude.{◌≡◌, ◌-◌, ◌*◌, ◌^◌, ◌≤◌, ◌<◌};
ghost use Rattle.plan_rules.specs.delays.Answer.{smallest_delay, least_delay, greatest_delay, delays_within};
ghost use Rattle.plan.specs.Served.{Served};

use plan_rules::delays::Delays;
use refused::Refusal;

// The smallest delay with B at most L.
pub fn smallest_delay(s: rules::Setting) -> u64
    requires { (1 ≤ s.w) × (s.w ≤ 2 ^ 30) × (2 * s.n * s.trc ≤ s.w - 1) × (2 * s.n < s.l) × (s.n ≤ 2 ^ 20) }
    ensures { result ≡ smallest_delay s }
{
    let free = 2 * s.n;
    (s.w - 1 - free * s.trc) / (s.l - free) + 1
}

// The greatest delay that is at most the epoch and needs no more history places than the limits allow.
pub fn greatest_delay(m: rules::Limits, s: rules::Setting) -> u64
    requires { Served m × (s.tfaw ≤ 65535) }
    ensures { result ≡ greatest_delay m s }
{
    (s.w / 2).min(m.history / 4 * s.tfaw)
}

// The delays that the setting's profile accepts of those from least to greatest, or refusal 16 where it accepts none of them.
pub fn delays_within(
    m: rules::Limits,
    s: rules::Setting,
    least: u64,
    greatest: u64,
) -> Result<Delays, Refusal>
    requires { (s.tfaw ≤ 65535) × (least ≡ least_delay s) × (greatest ≡ greatest_delay m s) }
    ensures { result ≡ delays_within m s }
{
    let own = setting::words::profile(s.profile);
    let last = greatest.min(own.history / 4 * s.tfaw);
    if own.banks < s.banks || last < least {
        return Err(Refusal::AboveProfile);
    }
    Ok(Delays {
        least,
        greatest: last,
    })
}
