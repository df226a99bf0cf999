// Set-up for callers in Rattle that own their memory. Where it is not refused, the state passes the tests of refusals 1 to 7 and 16.
ghost use Rattle.rules.specs.Policy.{limits01};
ghost use Rattle.rules.specs.Calls.{setup};
ghost use Rattle.hash_rules.specs.Words.{TableFor};
ghost use Rattle.sound.specs.Held.{Same, held};
ghost use Rattle.sound.specs.Told.{Begun, table_of};

use crate::buffers::Buffers;
use head::Head;
use refusal::setup_refusal;
use refused::Refusal;
use rules::Setting;
use setting::house_seeds::difference;

// Where it is not refused it says whether the seeds are the house seeds.
pub fn setup(
    s: Setting,
    seeds: &[u16],
    h: &mut Head,
    m: &mut Buffers<'_, u16>,
) -> Result<bool, Refusal>
    ensures same { Same m.old m.new }
    ensures begun { Begun s seeds.now result (held h.new m.new) (setup limits01 s seeds.now (held h.old m.old)) }
    ensures table { TableFor (table_of result) seeds.now }
{
    let differing = difference(seeds);
    setup_refusal(
        setting::narrow_limits(),
        s,
        differing,
        seeds,
        m.counters.len(),
        m.ticks.len(),
        m.rows.len(),
        m.threads.len(),
    )?;
    filter::turn::clear(&mut *m.counters, (s.banks * 2048) as usize);
    *h = state::setup::fresh(s, &mut *m.ticks, &mut *m.rows, &mut *m.threads);
    Ok(differing == 0)
}
