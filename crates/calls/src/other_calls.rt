// Set-up, a done and an index reading on the caller's memory, with filter counters of any width and at the limits of that width: what `lent::setup`,
// `lent::done` and `lent::index` do, and the filters cleared or turned.
ghost use Rattle.std.specs.Prelude.{◌≡◌, [], map};
ghost use Rattle.refused.specs.Numbers.{code_of};
ghost use Rattle.rules.specs.Setting.{setting_of};
ghost use Rattle.rules.specs.Policy.{in_force};
ghost use Rattle.rules.specs.Calls.{done, index, setup, step};
ghost use Rattle.interface.specs.Left.{left, found, leaves};

use crate::width::Width;
use refused::Refusal;
use sound::Named;

// Set-up: clears the head and the used parts of the buffers.
pub fn setup<C: Width>(
    setting: &[u64; 10],
    seeds: &[u16],
    head: &mut [u64; 22],
    counters: &mut [C],
    ticks: &mut [u64],
    rows: &mut [u32],
    threads: &mut [u32],
) -> Result<(), Refusal>
    ensures { left (code_of result) [] head.new (map C.value counters.new) ticks.new rows.new threads.new ≡ leaves (setup C.limits (setting_of setting.now) seeds.now (found head.old (map C.value counters.old) ticks.old rows.old threads.old)) [] head.old }
{
    let told = lent::setup::setup(
        C::width_limits(),
        setting,
        seeds,
        head,
        counters.len(),
        ticks,
        rows,
        threads,
    );
    let used = told.unwrap_or(0);
    filter::turn::clear(counters, used);
    told.and(Ok(()))
}

// A request done: one less in flight for the thread in the bank.
pub fn done<C: Width>(
    setting: &[u64; 10],
    seeds: &[u16],
    head: &mut [u64; 22],
    counters: &mut [C],
    ticks: &mut [u64],
    rows: &mut [u32],
    threads: &mut [u32],
    at: Named,
) -> Result<(), Refusal>
    ensures { left (code_of result) [] head.new (map C.value counters.new) ticks.new rows.new threads.new ≡ leaves (step (in_force C.limits) (setting_of setting.now) seeds.now (found head.old (map C.value counters.old) ticks.old rows.old threads.old) (done at.tick at.bank at.thread)) [] head.old }
{
    let clocked = lent::done::done(
        C::width_limits(),
        setting,
        seeds,
        head,
        counters.len(),
        &*ticks,
        &*rows,
        threads,
        at,
    )?;
    filter::turn::turn(counters, clocked.banks, clocked.from, clocked.to);
    Ok(())
}

// The RowHammer likelihood index of a thread in a bank: out gets c, D and the quota.
pub fn index<C: Width>(
    setting: &[u64; 10],
    seeds: &[u16],
    head: &mut [u64; 22],
    counters: &mut [C],
    ticks: &mut [u64],
    rows: &mut [u32],
    threads: &mut [u32],
    at: Named,
    out: &mut [u64; 3],
) -> Result<(), Refusal>
    ensures { left (code_of result) out.new head.new (map C.value counters.new) ticks.new rows.new threads.new ≡ leaves (step (in_force C.limits) (setting_of setting.now) seeds.now (found head.old (map C.value counters.old) ticks.old rows.old threads.old) (index at.tick at.bank at.thread)) out.old head.old }
{
    let reading = lent::index::index(
        C::width_limits(),
        setting,
        seeds,
        head,
        counters.len(),
        &*ticks,
        &*rows,
        threads,
        at,
        out,
    )?;
    filter::turn::turn(counters, reading.banks, reading.from, reading.to);
    Ok(())
}
