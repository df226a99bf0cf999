// Whether a stored tick of the head is after the last tick, a part of refusal 7. The head is read in the caller's 22 words: the last tick, the next
// place, sixteen banks, the rank's four.
ghost use Rattle.std.specs.Prelude.{◌≡◌, ◌^◌, ◌<◌, ◌≤◌, true, ◌&&◌};
ghost use Rattle.std.specs.List.{list_all};
ghost use Rattle.rules.specs.History.{not_after};
ghost use Rattle.refusal.specs.Words.{words_past};

// The head's twenty stored ticks and what each leaves of the last tick plus one, or-ed: no branch, so that the compiler uses vectors. While the top
// bit is clear in all of them, no difference has wrapped, so no stored tick is after the last tick.
fn distances(head: &[u64; 22]) -> u64
    ensures { result < 2 ^ 63 → words_past head.now 2 20 ≡ true }
{
    let limit = head[0].wrapping_add(1);
    let mut all: u64 = 0;
    for stored in &head[2..] {
        all = all | *stored | limit.wrapping_sub(*stored);
    }
    all
}

// Whether none of these stored ticks is after the last tick, one by one.
fn past(stored: &[u64], last: u64) -> bool
    ensures { result ≡ list_all (not_after last) stored.now }
{
    stored.iter().all(|s| history::is_not_after(*s, last))
}

// Whether no stored tick of the setting's banks and of the rank is after the last tick. The quick pass accepts only where none of the twenty, those of
// banks outside the setting included, is after the last tick, and it does so wherever the last tick is below 2^63 - 1 too. Else the exact tests decide.
pub fn head_past(head: &[u64; 22], banks: u64) -> bool
    requires { banks ≤ 16 }
    ensures { result ≡ (words_past head.now 2 banks && words_past head.now 18 4) }
{
    distances(head) < 9223372036854775808
        || past(&head[2..2 + banks as usize], head[0]) && past(&head[18..22], head[0])
}
