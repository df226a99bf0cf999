// The test of refusal 7: the next place, the head's stored ticks and the history ticks. The head is read in the caller's 22 words.
ghost use Rattle.std.specs.Prelude.{◌≡◌, ◌≤◌, length};
ghost use Rattle.rules.specs.Setting.{history_length};
ghost use Rattle.rules.specs.State.{head_of};
ghost use Rattle.refusal.specs.Memory.{memory_test};

use crate::head_ticks::head_past;
use rules::Setting;

// Refusal 7 does not apply.
pub fn memory_ok(s: Setting, head: &[u64; 22], ticks: &[u64], places: usize) -> bool
    requires { (s.banks ≤ 16) × (places ≡ history_length s) × (places ≤ length ticks.now) }
    ensures { result ≡ memory_test s (head_of head.now) ticks.now }
{
    let next = head[1];
    next < places as u64
        && head_past(head, s.banks)
        && history::steady(ticks, places, next as usize, head[0])
}
