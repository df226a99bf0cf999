// The hashing of many rows, by the seed rule or by the table, for bench/run, which compares the two; the crate `hash_rows_c` exports it. No other program
// needs it.
#![tactic(auto)]

ghost use Rattle.std.specs.Prelude.{true, ◌≡◌, get_or};
ghost use Rattle.rules.specs.Filter.{Within};
ghost use Rattle.hash_rules.specs.Lanes.{joined};
ghost use Rattle.hash_rows.specs.Rows.{hashed_rows};

use hash::join;
use setting::house_seeds::difference;

// Four places in one word, the first in the lowest lane.
fn word(p: [usize; 4]) -> u64
    requires { Within p }
    ensures { result ≡ joined (get_or p 0 0) (get_or p 1 0) (get_or p 2 0) (get_or p 3 0) }
{
    join(p[0] as u16, p[1] as u16, p[2] as u16, p[3] as u16)
}

// Whether the table is used: only where the caller wants it and the seeds are the house seeds.
fn by_table(table: u32, differing: u16) -> bool
    ensures { result ≡ true → differing ≡ 0 }
{
    table != 0 && differing == 0
}

// The exclusive or of the hashes of all rows; 0 where the seeds are not 64 numbers up to 1,023. Where table is not 0 and the seeds are the house
// seeds, the table is used. The result is the same either way.
// It rules out: a hash that leaves a row out, or that the table changes.
// Kept: `table` is a number for yes or no, and 0 stands for a refusal, by the C interface (bench/hashing.c).
pub fn hash_rows(seeds: &[u16], rows: &[u16], table: u32) -> u64
    ensures { result ≡ hashed_rows seeds.now rows.now }
{
    let differing = difference(seeds);
    if 1023 < differing {
        return 0;
    }
    let chosen = by_table(table, differing);
    let mut all: u64 = 0;
    for row in rows {
        all ^= word(hash::places(chosen, seeds, *row));
    }
    all
}
