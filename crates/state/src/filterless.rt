// The decision on a request from the estimates of its row, and done and index reading apart from the filters, on a state that passed the tests. No
// function here knows the width of a counter: a call turns its filters by the two epochs that are given back.
ghost use Rattle.std.specs.Prelude.{◌≡◌, ◌%◌, ◌^◌, ◌≤◌, ◌<◌, length, get_or};
ghost use Rattle.head.specs.Head.{moved_head};
ghost use Rattle.rules.specs.Setting.{index_scale};
ghost use Rattle.rules.specs.State.{threads_used, thread_cell};
ghost use Rattle.rules.specs.Clock.{epoch, turned_threads};
ghost use Rattle.rules.specs.Quota.{index_counter, quota_even};
ghost use Rattle.rules.specs.Calls.{one_less};
ghost use Rattle.state.specs.Ready.{Bounds, Ready};
ghost use Rattle.state.specs.DecisionBy.{decision_by};

use crate::clock::Turned;
use decision::decide;
use head::Head;
use rules::{Answer, Decision, Setting};

// The decision on a request for a row with these estimates in the active and in the other filter. e is the epoch of the last tick, stored the bank's
// cell of the head.
pub fn decide_by(
    s: Setting,
    h: Head,
    stored: u64,
    ticks: &[u64],
    rows: &[u32],
    threads: &[u32],
    bank: u64,
    thread: u64,
    row: u16,
    e: u64,
    active: u64,
    other: u64,
) -> Decision
    requires { Ready s h ticks.now rows.now threads.now bank thread × (e ≡ epoch s h.last) × (stored ≡ get_or h.bank bank 0) }
    ensures { result ≡ decision_by s active other h ticks.now rows.now threads.now bank thread row }
{
    let v = crate::view::look(
        s, h, stored, ticks, rows, threads, bank, thread, row, e, active, other,
    );
    decide(s, h.last, v)
}

// The answer to a request, with the head after it.
#[derive(Clone, Copy)]
pub struct Decided {
    pub answer: Answer,
    pub head: Head,
}

// A request done: one less in flight. Neither the history nor a filter plays a part.
pub fn done(s: Setting, h: Head, threads: &mut [u32], tick: u64, bank: u64, thread: u64) -> Turned
    requires { Bounds s × (threads_used s ≤ length threads.old) × (bank < s.banks) × (thread < s.threads) × (1 ≤ get_or threads.old (thread_cell s bank thread 2) 0) × (h.last ≤ tick) }
    ensures { (result.head ≡ moved_head h tick) × (threads.new ≡ one_less s bank thread (turned_threads (threads_used s) (epoch s h.last) (epoch s tick) threads.old)) × (result.from ≡ epoch s h.last) × (result.to ≡ epoch s tick) × (result.from < 2 ^ 63) }
{
    let x = crate::clock::turn(s, h, threads, tick);
    threads::counters::finish(threads, s, bank, thread);
    x
}

// The RowHammer likelihood index of a thread in a bank: its counter in test, its full scale and the quota.
#[derive(Clone, Copy, Debug, PartialEq, Eq)]
pub struct Reading {
    pub c: u64,
    pub scale: u64,
    pub quota: u64,
}

// Reads it on a state whose clock is in epoch e.
pub fn index(s: Setting, threads: &[u32], bank: u64, thread: u64, e: u64) -> Reading
    requires { Bounds s × (threads_used s ≤ length threads.now) × (bank < s.banks) × (thread < s.threads) }
    ensures { (result.c ≡ index_counter s threads.now bank thread (e % 2)) × (result.scale ≡ index_scale s) × (result.quota ≡ quota_even s result.c) }
{
    let f = (e % 2) as usize;
    let cell = threads::counters::cell(s, bank, thread);
    let c = threads[cell + f];
    let quota = threads::quota::quota(s, c);
    Reading {
        c: u64::from(c),
        scale: s.l - s.n,
        quota,
    }
}
