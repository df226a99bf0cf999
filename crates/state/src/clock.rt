// The clock of the state, moved to a tick apart from the filters.
ghost use Rattle.std.specs.Prelude.{◌≡◌, ◌*◌, ◌/◌, ◌^◌, ◌≤◌, ◌<◌, length};
ghost use Rattle.head.specs.Head.{moved_head};
ghost use Rattle.rules.specs.State.{threads_used};
ghost use Rattle.rules.specs.Clock.{epoch, turned_threads};
ghost use Rattle.state.specs.Ready.{Bounds};

use head::Head;
use rules::Setting;

// The epoch of a tick that is not before the start of epoch e. Most calls stay within an epoch and divide no second time.
fn epoch_from(tick: u64, e: u64, length: u64) -> u64
    requires { (1 ≤ length) × (e * length ≤ tick) }
    ensures { result ≡ tick / length }
{
    if tick - e * length < length {
        e
    } else {
        tick / length
    }
}

// The head with its clock moved, and the epochs of its last tick before and after.
#[derive(Clone, Copy)]
pub struct Turned {
    pub head: Head,
    pub from: u64,
    pub to: u64,
}

// The clock moved to a tick: clears what an epoch's turn clears of the thread counters, and gives the head. The filters are turned by the
// two epochs.
pub fn turn(s: Setting, h: Head, threads: &mut [u32], tick: u64) -> Turned
    requires { Bounds s × (threads_used s ≤ length threads.old) × (h.last ≤ tick) }
    ensures { (result.head ≡ moved_head h tick) × (threads.new ≡ turned_threads (threads_used s) (epoch s h.last) (epoch s tick) threads.old) × (result.from ≡ epoch s h.last) × (result.to ≡ epoch s tick) × (result.from < 2 ^ 63) }
{
    let length = s.w / 2;
    let from = h.last / length;
    let to = epoch_from(tick, from, length);
    threads::turn::turn(threads, (s.banks * s.threads * 3) as usize, from, to);
    Turned {
        head: h.moved(tick),
        from,
        to,
    }
}
