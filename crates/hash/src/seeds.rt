// The four places of a row by any seeds: the sixteen of an H3 function are four words of four lanes, 16 bits each, so that the seeds are masked and joined
// four at a time. No branch depends on the row.
ghost use Rattle.std.specs.Prelude.{◌≡◌, true, ◌<◌};
ghost use Rattle.rules.specs.Setting.{seeds_in_range};
ghost use Rattle.rules.specs.Hash.{hash, places};

use crate::lanes::{chosen, fold};

// Function f of a row: the exclusive or of its seeds i for which bit i of the row is set, four seeds at a time.
#[tactic(auto, using(crate::proofs::seeds::Laws::seeds_64))]
fn hash(seeds: &[u16], f: usize, row: u16) -> usize
    requires { (seeds_in_range seeds.now ≡ true) × (f < 4) }
    ensures { result ≡ hash seeds.now f row }
{
    let base = 16 * f;
    let bits = u64::from(row);
    let a = chosen(seeds, base, bits);
    let b = chosen(seeds, base + 4, bits / 16);
    let c = chosen(seeds, base + 8, bits / 256);
    let d = chosen(seeds, base + 12, bits / 4096);
    fold(a ^ b ^ c ^ d)
}

// The four places of a row in each filter by these seeds, function by function.
pub fn seed_places(seeds: &[u16], row: u16) -> [usize; 4]
    requires { seeds_in_range seeds.now ≡ true }
    ensures { result ≡ places seeds.now row }
{
    [
        hash(seeds, 0, row),
        hash(seeds, 1, row),
        hash(seeds, 2, row),
        hash(seeds, 3, row),
    ]
}
