// The throttle for C: libthrottle.a. Each call is the function of the same name of the crate `throttle`, under the same contract: set-up, request, done and
// index with 16-bit filter counters, the same with 32-bit ones, and the change-over from one to the other. Every call returns 0 when it answered, and else
// the number of its refusal; a refused call changes nothing that was lent. Of buffers that overlap nothing is promised.
// Kept: a function for each width, since C calls each by its name (C interface).
#![tactic(auto)]

ghost use Rattle.std.specs.Prelude.{◌≡◌, []};
ghost use Rattle.rules.specs.Setting.{setting_of};
ghost use Rattle.rules.specs.Policy.{limits01, limits02, narrow, wide};
ghost use Rattle.rules.specs.Calls.{request, done, index, setup, step};
ghost use Rattle.widths.specs.ChangeOver.{changed_over, change_over};
ghost use Rattle.interface.specs.Left.{left, found, leaves};

// Set-up: clears the head and the used parts of the buffers.
#[unsafe(no_mangle)]
pub extern "C" fn throttle_setup(
    setting: &[u64; 10],
    seeds: &[u16],
    head: &mut [u64; 22],
    counters: &mut [u16],
    ticks: &mut [u64],
    rows: &mut [u32],
    threads: &mut [u32],
) -> u32
    ensures { left result [] head.new counters.new ticks.new rows.new threads.new ≡ leaves (setup limits01 (setting_of setting.now) seeds.now (found head.old counters.old ticks.old rows.old threads.old)) [] head.old }
{
    throttle::throttle_setup(setting, seeds, head, counters, ticks, rows, threads)
}

// A request for a row: out gets the answer's number, the wait tick and the openings left.
#[unsafe(no_mangle)]
pub extern "C" fn throttle_request(
    setting: &[u64; 10],
    seeds: &[u16],
    head: &mut [u64; 22],
    counters: &mut [u16],
    ticks: &mut [u64],
    rows: &mut [u32],
    threads: &mut [u32],
    tick: u64,
    bank: u64,
    thread: u64,
    row: u16,
    out: &mut [u64; 3],
) -> u32
    ensures { left result out.new head.new counters.new ticks.new rows.new threads.new ≡ leaves (step narrow (setting_of setting.now) seeds.now (found head.old counters.old ticks.old rows.old threads.old) (request tick bank thread row)) out.old head.old }
{
    throttle::throttle_request(
        setting, seeds, head, counters, ticks, rows, threads, tick, bank, thread, row, out,
    )
}

// A request done: one less in flight for the thread in the bank.
#[unsafe(no_mangle)]
pub extern "C" fn throttle_done(
    setting: &[u64; 10],
    seeds: &[u16],
    head: &mut [u64; 22],
    counters: &mut [u16],
    ticks: &mut [u64],
    rows: &mut [u32],
    threads: &mut [u32],
    tick: u64,
    bank: u64,
    thread: u64,
) -> u32
    ensures { left result [] head.new counters.new ticks.new rows.new threads.new ≡ leaves (step narrow (setting_of setting.now) seeds.now (found head.old counters.old ticks.old rows.old threads.old) (done tick bank thread)) [] head.old }
{
    throttle::throttle_done(
        setting, seeds, head, counters, ticks, rows, threads, tick, bank, thread,
    )
}

// The RowHammer likelihood index of a thread in a bank: out gets c, D and the quota.
#[unsafe(no_mangle)]
pub extern "C" fn throttle_index(
    setting: &[u64; 10],
    seeds: &[u16],
    head: &mut [u64; 22],
    counters: &mut [u16],
    ticks: &mut [u64],
    rows: &mut [u32],
    threads: &mut [u32],
    tick: u64,
    bank: u64,
    thread: u64,
    out: &mut [u64; 3],
) -> u32
    ensures { left result out.new head.new counters.new ticks.new rows.new threads.new ≡ leaves (step narrow (setting_of setting.now) seeds.now (found head.old counters.old ticks.old rows.old threads.old) (index tick bank thread)) out.old head.old }
{
    throttle::throttle_index(
        setting, seeds, head, counters, ticks, rows, threads, tick, bank, thread, out,
    )
}

// Set-up at the new width: N to 2^20, H to 32,768.
#[unsafe(no_mangle)]
pub extern "C" fn throttle_wide_setup(
    setting: &[u64; 10],
    seeds: &[u16],
    head: &mut [u64; 22],
    counters: &mut [u32],
    ticks: &mut [u64],
    rows: &mut [u32],
    threads: &mut [u32],
) -> u32
    ensures { left result [] head.new counters.new ticks.new rows.new threads.new ≡ leaves (setup limits02 (setting_of setting.now) seeds.now (found head.old counters.old ticks.old rows.old threads.old)) [] head.old }
{
    throttle::throttle_wide_setup(setting, seeds, head, counters, ticks, rows, threads)
}

// A request at the new width.
#[unsafe(no_mangle)]
pub extern "C" fn throttle_wide_request(
    setting: &[u64; 10],
    seeds: &[u16],
    head: &mut [u64; 22],
    counters: &mut [u32],
    ticks: &mut [u64],
    rows: &mut [u32],
    threads: &mut [u32],
    tick: u64,
    bank: u64,
    thread: u64,
    row: u16,
    out: &mut [u64; 3],
) -> u32
    ensures { left result out.new head.new counters.new ticks.new rows.new threads.new ≡ leaves (step wide (setting_of setting.now) seeds.now (found head.old counters.old ticks.old rows.old threads.old) (request tick bank thread row)) out.old head.old }
{
    throttle::throttle_wide_request(
        setting, seeds, head, counters, ticks, rows, threads, tick, bank, thread, row, out,
    )
}

// A request done, at the new width.
#[unsafe(no_mangle)]
pub extern "C" fn throttle_wide_done(
    setting: &[u64; 10],
    seeds: &[u16],
    head: &mut [u64; 22],
    counters: &mut [u32],
    ticks: &mut [u64],
    rows: &mut [u32],
    threads: &mut [u32],
    tick: u64,
    bank: u64,
    thread: u64,
) -> u32
    ensures { left result [] head.new counters.new ticks.new rows.new threads.new ≡ leaves (step wide (setting_of setting.now) seeds.now (found head.old counters.old ticks.old rows.old threads.old) (done tick bank thread)) [] head.old }
{
    throttle::throttle_wide_done(
        setting, seeds, head, counters, ticks, rows, threads, tick, bank, thread,
    )
}

// The RowHammer likelihood index of a thread in a bank, at the new width.
#[unsafe(no_mangle)]
pub extern "C" fn throttle_wide_index(
    setting: &[u64; 10],
    seeds: &[u16],
    head: &mut [u64; 22],
    counters: &mut [u32],
    ticks: &mut [u64],
    rows: &mut [u32],
    threads: &mut [u32],
    tick: u64,
    bank: u64,
    thread: u64,
    out: &mut [u64; 3],
) -> u32
    ensures { left result out.new head.new counters.new ticks.new rows.new threads.new ≡ leaves (step wide (setting_of setting.now) seeds.now (found head.old counters.old ticks.old rows.old threads.old) (index tick bank thread)) out.old head.old }
{
    throttle::throttle_wide_index(
        setting, seeds, head, counters, ticks, rows, threads, tick, bank, thread, out,
    )
}

// The change-over of a saved state with 16-bit counters to 32-bit ones: the used part of the new counters becomes the old counters, as numbers.
#[unsafe(no_mangle)]
pub extern "C" fn throttle_change_over(
    setting: &[u64; 10],
    seeds: &[u16],
    head: &[u64; 22],
    old: &[u16],
    counters: &mut [u32],
    ticks: &[u64],
    rows: &[u32],
    threads: &[u32],
) -> u32
    ensures { changed_over result counters.new ≡ change_over (setting_of setting.now) seeds.now (found head.now old.now ticks.now rows.now threads.now) counters.old }
{
    throttle::throttle_change_over(setting, seeds, head, old, counters, ticks, rows, threads)
}
