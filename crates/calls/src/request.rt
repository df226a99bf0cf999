// A request on the caller's memory, with filter counters of any width: the tests of what was lent, the request, and the answer stored.
ghost use Rattle.std.specs.Prelude.{◌≡◌, map};
ghost use Rattle.refused.specs.Numbers.{code_of};
ghost use Rattle.rules.specs.Setting.{setting_of};
ghost use Rattle.rules.specs.Policy.{in_force};
ghost use Rattle.rules.specs.Calls.{request, step};
ghost use Rattle.interface.specs.Left.{left, found, leaves};

use filter::counter::Counter;
use lent::request::{bank_word, tested, told};
use lent::words::load_head;
use refused::Refusal;
use rules::Limits;
use sound::Named;
use sound::buffers::Buffers;

// m are the limits of the width.
#[tactic(auto, using(lent::proofs::request::Settled::request_told))]
pub fn request<C: Counter>(
    m: Limits,
    setting: &[u64; 10],
    seeds: &[u16],
    head: &mut [u64; 22],
    counters: &mut [C],
    ticks: &mut [u64],
    rows: &mut [u32],
    threads: &mut [u32],
    at: Named,
    row: u16,
    out: &mut [u64; 3],
) -> Result<(), Refusal>
    requires { m ≡ C.limits }
    ensures { left (code_of result) out.new head.new (map C.value counters.new) ticks.new rows.new threads.new ≡ leaves (step (in_force C.limits) (setting_of setting.now) seeds.now (found head.old (map C.value counters.old) ticks.old rows.old threads.old) (request at.tick at.bank at.thread row)) out.old head.old }
{
    let checked = tested(
        m,
        setting,
        seeds,
        &*head,
        counters.len(),
        &*ticks,
        rows.len(),
        threads.len(),
        at,
    );
    let table = checked?;
    let s = setting::load(setting);
    let h = load_head(&*head);
    let stored = bank_word(&*head, at.bank);
    let mut buffers = Buffers {
        counters,
        ticks,
        rows,
        threads,
    };
    let d = sound::tested::request(s, table, seeds, h, stored, &mut buffers, at, row);
    let answer = d.answer;
    let after = d.head;
    told(answer, after, head, out);
    Ok(())
}
