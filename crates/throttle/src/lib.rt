// The throttle for C, which the crate `throttle_c` exports, proved against the rules: set-up, request, done and index with 16-bit filter counters, the same
// with 32-bit ones, and the change-over from one to the other. Every call returns 0 when it answered, and else the number of its refusal; a refused call
// changes nothing that was lent. Of buffers that overlap nothing is promised.
// Both widths call the same generic functions of `calls`.
#![tactic(auto)]

ghost use Rattle.std.specs.Prelude.{◌≡◌, []};
ghost use Rattle.rules.specs.Setting.{setting_of};
ghost use Rattle.rules.specs.Policy.{limits01, limits02, narrow, wide};
ghost use Rattle.rules.specs.Calls.{request, done, index, setup, step};
ghost use Rattle.widths.specs.ChangeOver.{changed_over, change_over};
ghost use Rattle.interface.specs.Left.{left, found, leaves};

use change_over::change_over;
use refused::code;
use setting::{narrow_limits, wide_limits};

// For callers in Rattle that own their memory: set-up, request and done without the test of the whole history, what a call names, and the numbers of an
// answer.
pub use decision::numbers::{answer_number, answer_wait};
pub use sound::{Named, done, request, setup};

// Set-up: clears the head and the used parts of the buffers.
// It rules out: a set-up that refuses an accepted setting, clears half of the counters, or leaves stored ticks in the head.
pub fn throttle_setup(
    setting: &[u64; 10],
    seeds: &[u16],
    head: &mut [u64; 22],
    counters: &mut [u16],
    ticks: &mut [u64],
    rows: &mut [u32],
    threads: &mut [u32],
) -> u32
    ensures { left result [] head.new counters.new ticks.new rows.new threads.new ≡ leaves (setup limits01 (setting_of setting.now) seeds.now (found head.old counters.old ticks.old rows.old threads.old)) [] head.old }
{
    code(calls::other_calls::setup(setting, seeds, head, counters, ticks, rows, threads))
}

// A request for a row: out gets the answer's number, the wait tick and the openings left.
// It rules out: a throttle that holds all, opens all, never moves its state, or counts a row that waits; one that tells the openings left of before the
// opening or of the other filter, caps them, or tells some with a wait.
pub fn throttle_request(
    setting: &[u64; 10],
    seeds: &[u16],
    head: &mut [u64; 22],
    counters: &mut [u16],
    ticks: &mut [u64],
    rows: &mut [u32],
    threads: &mut [u32],
    tick: u64,
    bank: u64,
    thread: u64,
    row: u16,
    out: &mut [u64; 3],
) -> u32
    ensures { left result out.new head.new counters.new ticks.new rows.new threads.new ≡ leaves (step narrow (setting_of setting.now) seeds.now (found head.old counters.old ticks.old rows.old threads.old) (request tick bank thread row)) out.old head.old }
{
    let limits = narrow_limits();
    let at = Named { tick, bank, thread };
    let answered = calls::request::request(
        limits, setting, seeds, head, counters, ticks, rows, threads, at, row, out,
    );
    code(answered)
}

// A request done: one less in flight for the thread in the bank.
// It rules out: a done that lowers an index counter, moves the clock when refused, or keeps the clock when not.
pub fn throttle_done(
    setting: &[u64; 10],
    seeds: &[u16],
    head: &mut [u64; 22],
    counters: &mut [u16],
    ticks: &mut [u64],
    rows: &mut [u32],
    threads: &mut [u32],
    tick: u64,
    bank: u64,
    thread: u64,
) -> u32
    ensures { left result [] head.new counters.new ticks.new rows.new threads.new ≡ leaves (step narrow (setting_of setting.now) seeds.now (found head.old counters.old ticks.old rows.old threads.old) (done tick bank thread)) [] head.old }
{
    let at = Named { tick, bank, thread };
    code(calls::other_calls::done(setting, seeds, head, counters, ticks, rows, threads, at))
}

// The RowHammer likelihood index of a thread in a bank: out gets c, D and the quota.
// It rules out: an invented index, and one that is filter 0's in every epoch.
pub fn throttle_index(
    setting: &[u64; 10],
    seeds: &[u16],
    head: &mut [u64; 22],
    counters: &mut [u16],
    ticks: &mut [u64],
    rows: &mut [u32],
    threads: &mut [u32],
    tick: u64,
    bank: u64,
    thread: u64,
    out: &mut [u64; 3],
) -> u32
    ensures { left result out.new head.new counters.new ticks.new rows.new threads.new ≡ leaves (step narrow (setting_of setting.now) seeds.now (found head.old counters.old ticks.old rows.old threads.old) (index tick bank thread)) out.old head.old }
{
    let at = Named { tick, bank, thread };
    code(calls::other_calls::index(
        setting, seeds, head, counters, ticks, rows, threads, at, out,
    ))
}

// Set-up at the new width: N to 2^20, H to 32,768.
// It rules out: the limits of the old width, and counters that are cleared as if they were half as wide.
pub fn throttle_wide_setup(
    setting: &[u64; 10],
    seeds: &[u16],
    head: &mut [u64; 22],
    counters: &mut [u32],
    ticks: &mut [u64],
    rows: &mut [u32],
    threads: &mut [u32],
) -> u32
    ensures { left result [] head.new counters.new ticks.new rows.new threads.new ≡ leaves (setup limits02 (setting_of setting.now) seeds.now (found head.old counters.old ticks.old rows.old threads.old)) [] head.old }
{
    code(calls::other_calls::setup(setting, seeds, head, counters, ticks, rows, threads))
}

// A request at the new width.
// It rules out: a counter that stops at 65,535, or an estimate that is cut to 16 bits.
pub fn throttle_wide_request(
    setting: &[u64; 10],
    seeds: &[u16],
    head: &mut [u64; 22],
    counters: &mut [u32],
    ticks: &mut [u64],
    rows: &mut [u32],
    threads: &mut [u32],
    tick: u64,
    bank: u64,
    thread: u64,
    row: u16,
    out: &mut [u64; 3],
) -> u32
    ensures { left result out.new head.new counters.new ticks.new rows.new threads.new ≡ leaves (step wide (setting_of setting.now) seeds.now (found head.old counters.old ticks.old rows.old threads.old) (request tick bank thread row)) out.old head.old }
{
    let limits = wide_limits();
    let at = Named { tick, bank, thread };
    let replied = calls::request::request(
        limits, setting, seeds, head, counters, ticks, rows, threads, at, row, out,
    );
    code(replied)
}

// A request done, at the new width.
// It rules out: filters that are not turned.
pub fn throttle_wide_done(
    setting: &[u64; 10],
    seeds: &[u16],
    head: &mut [u64; 22],
    counters: &mut [u32],
    ticks: &mut [u64],
    rows: &mut [u32],
    threads: &mut [u32],
    tick: u64,
    bank: u64,
    thread: u64,
) -> u32
    ensures { left result [] head.new counters.new ticks.new rows.new threads.new ≡ leaves (step wide (setting_of setting.now) seeds.now (found head.old counters.old ticks.old rows.old threads.old) (done tick bank thread)) [] head.old }
{
    let at = Named { tick, bank, thread };
    code(calls::other_calls::done(setting, seeds, head, counters, ticks, rows, threads, at))
}

// The RowHammer likelihood index of a thread in a bank, at the new width.
// It rules out: the limits of the old width.
pub fn throttle_wide_index(
    setting: &[u64; 10],
    seeds: &[u16],
    head: &mut [u64; 22],
    counters: &mut [u32],
    ticks: &mut [u64],
    rows: &mut [u32],
    threads: &mut [u32],
    tick: u64,
    bank: u64,
    thread: u64,
    out: &mut [u64; 3],
) -> u32
    ensures { left result out.new head.new counters.new ticks.new rows.new threads.new ≡ leaves (step wide (setting_of setting.now) seeds.now (found head.old counters.old ticks.old rows.old threads.old) (index tick bank thread)) out.old head.old }
{
    let at = Named { tick, bank, thread };
    code(calls::other_calls::index(
        setting, seeds, head, counters, ticks, rows, threads, at, out,
    ))
}

// The change-over of a saved state with 16-bit counters to 32-bit ones: the used part of the new counters becomes the old counters, as numbers.
// It rules out: counters cut to 15 bits, or taken over for one bank; the limits of the new width, memory that is not tested. All but the new counters is
// lent for reading, so it moves no clock and clears nothing.
pub fn throttle_change_over(
    setting: &[u64; 10],
    seeds: &[u16],
    head: &[u64; 22],
    old: &[u16],
    counters: &mut [u32],
    ticks: &[u64],
    rows: &[u32],
    threads: &[u32],
) -> u32
    ensures { changed_over result counters.new ≡ change_over (setting_of setting.now) seeds.now (found head.now old.now ticks.now rows.now threads.now) counters.old }
{
    let old_limits = narrow_limits();
    change_over(
        old_limits, setting, seeds, head, old, counters, ticks, rows, threads,
    )
}
