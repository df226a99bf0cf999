// A request for callers in Rattle, on a state that passed the tests of refusals 1 to 7 and 16, which it keeps. Only bank, thread and tick are tested.
ghost use Rattle.std.specs.Prelude.{◌≡◌};
ghost use Rattle.rules.specs.Answers.{none};
ghost use Rattle.rules.specs.Setting.{setting_refusal};
ghost use Rattle.rules.specs.Policy.{limits01, narrow};
ghost use Rattle.rules.specs.Tested.{Sound};
ghost use Rattle.rules.specs.Calls.{request, step};
ghost use Rattle.hash_rules.specs.Words.{TableFor};
ghost use Rattle.sound.specs.Held.{Same, held};
ghost use Rattle.sound.specs.Told.{Told};

use crate::buffers::Buffers;
use head::Head;
use refusal::{Named, place_refusal};
use refused::Refusal;
use rules::{Answer, Setting};

// `table` says that the seeds are the house seeds: a caller that owns its memory tests that once.
pub fn request(
    s: Setting,
    table: bool,
    seeds: &[u16],
    h: &mut Head,
    m: &mut Buffers<'_, u16>,
    at: Named,
    row: u16,
) -> Result<Answer, Refusal>
    requires { (setting_refusal limits01 s seeds.now ≡ none) × Sound s (held h.old m.old) × TableFor table seeds.now }
    ensures same { Same m.old m.new }
    ensures told { Told s result (held h.new m.new) (step narrow s seeds.now (held h.old m.old) (request at.tick at.bank at.thread row)) }
{
    place_refusal(s, h.last, at)?;
    let found = *h;
    let banks = found.bank;
    let d = crate::tested::request(s, table, seeds, found, banks[at.bank as usize], m, at, row);
    *h = d.head;
    Ok(d.answer)
}
