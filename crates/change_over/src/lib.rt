// The change-over of document 02, a: a saved state with 16-bit counters is taken over to 32-bit counters. Head, history and thread counters are lent for
// reading only, and so are the old counters.
#![tactic(auto)]

ghost use Rattle.std.specs.Prelude.{◌≡◌, ◌≤◌, length};
ghost use Rattle.rules.specs.Setting.{setting_of};
ghost use Rattle.rules.specs.Policy.{limits01};
ghost use Rattle.widths.specs.ChangeOver.{copied, changed_over, change_over};
ghost use Rattle.interface.specs.Left.{found};

use refusal::{Lent, lent_refusal};
use rules::Limits;
use setting::house_seeds::difference;

// The first counters become the old ones, as numbers.
fn take_over(old: &[u16], counters: &mut [u32], used: usize)
    requires { (used ≤ length old.now) × (used ≤ length counters.old) }
    ensures { counters.new ≡ copied used old.now counters.old }
{
    let old = &old[..used];
    // Kept: tried as a zip of the two; after it a proof knows the length of the counters and not what they hold.
    for (i, c) in counters[..used].iter_mut().enumerate() {
        *c = u32::from(old[i]);
    }
}

// The change-over on the caller's memory; m are the limits of the old width. The shorter of the two counter buffers decides whether one is too short.
pub fn change_over(
    m: Limits,
    setting: &[u64; 10],
    seeds: &[u16],
    head: &[u64; 22],
    old: &[u16],
    counters: &mut [u32],
    ticks: &[u64],
    rows: &[u32],
    threads: &[u32],
) -> u32
    requires { m ≡ limits01 }
    ensures { changed_over result counters.new ≡ change_over (setting_of setting.now) seeds.now (found head.now old.now ticks.now rows.now threads.now) counters.old }
{
    let lent = Lent {
        setting,
        seeds,
        differing: difference(seeds),
        head,
        counters: old.len().min(counters.len()),
        ticks,
        rows: rows.len(),
    };
    if let Err(refusal) = lent_refusal(m, lent, threads.len(), true) {
        return u32::from(refusal);
    }
    let s = setting::load(setting);
    take_over(old, counters, (s.banks * 2048) as usize);
    0
}
