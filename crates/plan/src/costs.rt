// The two widths of the filter counters, and what a setting costs at each: the places of its history, B, and the bytes that it is lent.
ghost use Rattle.std.specs.Prelude.{◌≡◌, ◌+◌, ◌-◌, ◌*◌, ◌^◌, ◌≤◌};
ghost use Rattle.rules.specs.Setting.{row_bound};
ghost use Rattle.plan_rules.specs.delays.Delays.{with_delay, AcceptedDelay};
ghost use Rattle.plan.specs.Costs.{ServedWidth, width_of, cost_of};

pub use crate::width::Width;

// What a setting costs.
#[derive(Clone, Copy, Debug, PartialEq, Eq)]
pub struct Cost {
    // H, the places of the history buffer.
    pub history: u64,
    // B, the most activations of a row in W ticks.
    pub bound: u64,
    // The bytes of the counters, both history buffers and the thread counters.
    pub bytes: u64,
}

// 32-bit counters, or 16-bit ones.
pub fn width_of(wide: bool) -> Width
    ensures { (result ≡ width_of wide) × ServedWidth result }
{
    if wide {
        Width {
            limits: setting::wide_limits(),
            counter: 4,
        }
    } else {
        Width {
            limits: setting::narrow_limits(),
            counter: 2,
        }
    }
}

// B, the most activations of a row in W ticks, with this delay.
fn row_bound(s: rules::Setting, td: u64) -> u64
    requires { (1 ≤ td) × (1 ≤ s.w) × (s.w ≤ 2 ^ 30) × (s.n ≤ 2 ^ 20) × (2 * s.n * s.trc ≤ s.w - 1) }
    ensures { result ≡ row_bound (with_delay s td) }
{
    let bursts = 2 * s.n;
    bursts + 1 + (s.w - 1 - bursts * s.trc) / td
}

// The bytes of the four buffers: counters of so many bytes each, 64-bit history ticks and 32-bit history rows, 32-bit thread counters.
fn bytes(counter: u64, banks: u64, threads: u64, history: u64) -> u64
    requires { (counter ≤ 4) × (banks ≤ 16) × (threads ≤ 32) × (history ≤ 32768) }
    ensures { result ≡ counter * (banks * 2048) + 12 * history + 4 * (banks * threads * 3) }
{
    counter * (banks * 2048) + 12 * history + 4 * (banks * threads * 3)
}

// What the setting costs with a delay that is accepted at this width: H, B, and the bytes of the four buffers.
pub fn costs(width: Width, s: rules::Setting, td: u64) -> Cost
    requires { AcceptedDelay width.limits s td }
    ensures { result ≡ cost_of width.counter (with_delay s td) }
{
    let history = setting::history_length(crate::interval::with_delay(s, td)) as u64;
    let bound = row_bound(s, td);
    let bytes = bytes(width.counter, s.banks, s.threads, history);
    Cost {
        history,
        bound,
        bytes,
    }
}
