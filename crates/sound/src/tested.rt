// A request on a state that passed the tests of refusals 1 to 9 and 16, with filter counters of any width, at the limits of that width. It leaves a state
// that passes the tests of 6 and 7, so that a caller that owns its memory tests bank, thread and tick only.
ghost use Rattle.std.specs.Prelude.{◌≡◌, get_or};
ghost use Rattle.rules.specs.Answers.{none};
ghost use Rattle.rules.specs.Clock.{turned};
ghost use Rattle.rules.specs.Hash.{places};
ghost use Rattle.rules.specs.Policy.{in_force};
ghost use Rattle.rules.specs.Tested.{Sound};
ghost use Rattle.rules.specs.Calls.{answered, call_refusal, outcome, requested};
ghost use Rattle.hash_rules.specs.Words.{TableFor};
ghost use Rattle.sound.specs.Held.{Same, held_by};

use crate::buffers::Buffers;
use decision::answers::{answer, openings_left, opens};
use filter::count::count;
use filter::counter::Counter;
use filter::look::look;
use head::Head;
use refusal::Named;
use rules::Setting;
use state::activate;
use state::filterless::{Decided, decide_by};

// Decides on a request and, where it is opened, makes the activation. stored is the bank's cell of the head; `table` says that the seeds are the
// house seeds.
pub fn request<C: Counter>(
    s: Setting,
    table: bool,
    seeds: &[u16],
    h: Head,
    stored: u64,
    m: &mut Buffers<'_, C>,
    at: Named,
    row: u16,
) -> Decided
    requires { (call_refusal C.limits s seeds.now (held_by C.value h m.old) at.tick at.bank at.thread ≡ none) × (stored ≡ get_or h.bank at.bank 0) × TableFor table seeds.now }
    ensures same { Same m.old m.new }
    ensures outcome_is { outcome (answered result.answer) (held_by C.value result.head m.new) ≡ requested (in_force C.limits) s (λ f. places seeds.now row) (turned s (held_by C.value h m.old) at.tick) at.bank at.thread row }
    ensures sound { Sound s (held_by C.value result.head m.new) }
{
    let x = state::clock::turn(s, h, &mut *m.threads, at.tick);
    let moved = x.head;
    let to = x.to;
    let four = hash::places(table, seeds, row);
    let e = look(
        &mut *m.counters,
        s.banks as usize,
        x.from,
        to,
        at.bank as usize,
        four,
        four,
    );
    let d = decide_by(
        s,
        moved,
        stored,
        &mut *m.ticks,
        &mut *m.rows,
        &mut *m.threads,
        at.bank,
        at.thread,
        row,
        to,
        e.active,
        e.other,
    );
    if !opens(d) {
        return Decided {
            answer: answer(d, 0),
            head: moved,
        };
    }
    let head = activate(
        s,
        moved,
        &mut *m.ticks,
        &mut *m.rows,
        &mut *m.threads,
        at.bank,
        at.thread,
        row,
        s.n <= e.active,
    );
    let estimate = count(
        &mut *m.counters,
        at.bank as usize,
        four,
        four,
        C::threshold(s.n),
        (to % 2) as usize,
    )
    .number();
    Decided {
        answer: answer(d, openings_left(s.n, estimate)),
        head,
    }
}
