// The H3 hash of a row: its four places in a counting Bloom filter, by four functions of 16 seeds each; by any seeds (`seeds`, with `lanes`), or by the table
// of the house seeds (`table`, with `high` and `low`).
#![tactic(auto)]

mod high;
mod lanes;
mod low;
mod seeds;
mod table;

ghost use Rattle.std.specs.Prelude.{◌≡◌, true};
ghost use Rattle.rules.specs.Setting.{seeds_in_range};
ghost use Rattle.rules.specs.Hash.{places};
ghost use Rattle.rules.specs.Filter.{Within};
ghost use Rattle.rules.specs.Samples.{house};
ghost use Rattle.hash_rules.specs.Words.{TableFor};

pub use crate::lanes::join;
use crate::seeds::seed_places;
use crate::table::table_places;

// The four places of a row in a filter that holds these seeds; from the table where `table` says that they are the house seeds.
// It rules out: the table used for other seeds, the bytes exchanged, and one function's word taken for another's.
pub fn places(table: bool, seeds: &[u16], row: u16) -> [usize; 4]
    requires { (seeds_in_range seeds.now ≡ true) × TableFor table seeds.now }
    ensures { (result ≡ places seeds.now row) × Within result }
{
    if table {
        return table_places(row);
    }
    seed_places(seeds, row)
}
