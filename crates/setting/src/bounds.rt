// Refusals 2, 3, 5 and 16 as tests of a setting whose fields are in range, and H, the length of the history buffer, which refusals 4 and 16 test.
ghost use Rattle.std.specs.Prelude.{◌≡◌, ◌||◌, ◌-◌, ◌*◌, ◌^◌, ◌≤◌, ltb};
ghost use Rattle.rules.specs.Cells.{ceil_div};
ghost use Rattle.rules.specs.Setting.{epoch_length, history_length, row_bound, exceeds};

// Refusal 2: the window is too short for the free activations of two bursts.
pub fn short_window(s: rules::Setting) -> bool
    requires { (2 ≤ s.w) × (s.n ≤ 2 ^ 20) × (s.trc ≤ 65535) }
    ensures { result ≡ ltb (s.w - 1) (2 * s.n * s.trc) }
{
    s.w - 1 < 2 * s.n * s.trc
}

// Refusal 3: the delay is below the gap of activations, or above the epoch.
pub fn bad_delay(s: rules::Setting) -> bool
    ensures { result ≡ (ltb s.td s.trc || ltb (epoch_length s) s.td) }
{
    s.td < s.trc || s.w / 2 < s.td
}

// Four times td / tfaw, rounded up: at most four activations of the rank fall within any tfaw ticks. The division is one of 32 bits.
fn history_places(td: u32, tfaw: u32) -> u32
    requires { (1 ≤ tfaw) × (tfaw ≤ 65535) × (td ≤ 2 ^ 29) }
    ensures { result ≡ 4 * ceil_div td tfaw }
{
    4 * ((td + (tfaw - 1)) / tfaw)
}

// H, the length of the history buffer.
pub fn history_length(s: rules::Setting) -> usize
    requires { (1 ≤ s.tfaw) × (s.tfaw ≤ 65535) × (s.td ≤ 2 ^ 29) }
    ensures { result ≡ history_length s }
{
    history_places(s.td as u32, s.tfaw as u32) as usize
}

// Refusal 5: B, the most activations of a row in W ticks that the rules allow, is above L.
// B is 2N + 1 + floor(rest / td), so B > L is the same as (L - 2N) x td <= rest, which needs no division.
pub fn above_limit(s: rules::Setting) -> bool
    requires { (1 ≤ s.td) × (s.td ≤ 2 ^ 29) × (1 ≤ s.w) × (s.n ≤ 2 ^ 20) × (s.l ≤ 2 ^ 24) × (2 * s.n * s.trc ≤ s.w - 1) × (s.w ≤ 2 ^ 30) }
    ensures { result ≡ ltb s.l (row_bound s) }
{
    let free = 2 * s.n;
    let rest = s.w - 1 - free * s.trc;
    if s.l <= free {
        return true;
    }
    (s.l - free) * s.td <= rest
}

// Refusal 16: so many banks, or so long a history, are above the profile.
pub fn above_profile(p: rules::Profile, banks: u64, history: u64) -> bool
    ensures { result ≡ exceeds p banks history }
{
    p.banks < banks || p.history < history
}
