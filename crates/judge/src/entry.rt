// A record against the model's reply to its call.
ghost use Rattle.std.specs.Prelude.{◌≡◌, ◌≤◌};
ghost use Rattle.rules.specs.Answers.{none};
ghost use Rattle.rules.specs.Setting.{setting_refusal};
ghost use Rattle.rules.specs.Policy.{limits01, narrow};
ghost use Rattle.rules.specs.Tested.{Sound};
ghost use Rattle.log_format.specs.Verdict.{judge_record};
ghost use Rattle.hash_rules.specs.Words.{TableFor};
ghost use Rattle.tally.specs.Settled.{Room};
ghost use Rattle.sound.specs.Held.{Same, held};
ghost use Rattle.judge.specs.Follow.{running, Judged};

use head::Head;
use log_format::Entry;
use rules::Setting;
use sound::buffers::Buffers;
use tally::{Progress, Report, opened_by, refused, settle};
use throttle::Named;

// What the call of a record names.
fn named(e: Entry) -> Named
    ensures { (result.tick ≡ e.tick) × (result.bank ≡ e.bank) × (result.thread ≡ e.thread) }
{
    Named {
        tick: e.tick,
        bank: e.bank,
        thread: e.thread,
    }
}

// A record of a request.
fn judge_request(
    s: Setting,
    table: bool,
    seeds: &[u16],
    h: &mut Head,
    m: &mut Buffers<'_, u16>,
    p: Progress,
    e: Entry,
) -> Result<Progress, Report>
    requires { (setting_refusal limits01 s seeds.now ≡ none) × Sound s (held h.old m.old) × Room p 1 × (e.kind ≡ 0) × TableFor table seeds.now }
    ensures same { Same m.old m.new }
    ensures judged { Judged s seeds.now p 1 result (held h.new m.new) (judge_record narrow (running p s seeds.now (held h.old m.old)) e) }
{
    match throttle::request(s, table, seeds, h, m, named(e), e.row) {
        Ok(answer) => {
            let number = throttle::answer_number(answer);
            let wait = throttle::answer_wait(answer);
            settle(p, e, number, wait, opened_by(number))
        }
        Err(refusal) => Err(refused(u64::from(u32::from(refusal)), p)),
    }
}

// A record of a done: the rules answer 0 and wait for nothing.
fn judge_done(
    s: Setting,
    seeds: &[u16],
    h: &mut Head,
    m: &mut Buffers<'_, u16>,
    p: Progress,
    e: Entry,
) -> Result<Progress, Report>
    requires { (setting_refusal limits01 s seeds.now ≡ none) × Sound s (held h.old m.old) × Room p 1 × (1 ≤ e.kind) }
    ensures same { Same m.old m.new }
    ensures judged { Judged s seeds.now p 1 result (held h.new m.new) (judge_record narrow (running p s seeds.now (held h.old m.old)) e) }
{
    match throttle::done(
        s,
        seeds,
        h,
        &mut *m.counters,
        &mut *m.ticks,
        &mut *m.rows,
        &mut *m.threads,
        named(e),
    ) {
        Ok(()) => settle(p, e, 0, 0, 0),
        Err(refusal) => Err(refused(u64::from(u32::from(refusal)), p)),
    }
}

// A record of either kind. Ok: the log goes on with this progress. Err: it is over with this report.
pub fn judge_record(
    s: Setting,
    table: bool,
    seeds: &[u16],
    h: &mut Head,
    m: &mut Buffers<'_, u16>,
    p: Progress,
    e: Entry,
) -> Result<Progress, Report>
    requires { (setting_refusal limits01 s seeds.now ≡ none) × Sound s (held h.old m.old) × Room p 1 × TableFor table seeds.now }
    ensures same { Same m.old m.new }
    ensures judged { Judged s seeds.now p 1 result (held h.new m.new) (judge_record narrow (running p s seeds.now (held h.old m.old)) e) }
{
    if e.kind == 0 {
        return judge_request(s, table, seeds, h, m, p, e);
    }
    judge_done(s, seeds, h, m, p, e)
}
