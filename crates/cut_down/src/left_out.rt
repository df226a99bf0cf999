// One try: a record left out of a selection of a log's records, if the others still differ. A selection is a number, bit i for record i. Whether one
// differs is asked only through the contract of a run.
ghost use Rattle.std.specs.Prelude.{◌≡◌, ◌≤◌, ◌<◌, length};
ghost use Rattle.rules.specs.Policy.{narrow};
ghost use Rattle.log_format.specs.Claims.{records_of, WellFormed};
ghost use Rattle.cut_rules.specs.selections.Selections.{tried, bits};
ghost use Rattle.cut_rules.specs.Cut.{differs_with};

use crate::memory::Memory;
use crate::run::differs;
use crate::selection::is_kept;

// Record i left out, if it stays and the others still differ.
pub fn attempt(m: &mut Memory, bytes: &[u8], n: u64, i: u64, kept: u64) -> u64
    requires { WellFormed bytes.now × (n ≡ length (records_of bytes.now)) × (n ≤ 64) × (i < n) }
    ensures { (bits n result ≡ tried (differs_with narrow bytes.now) i (bits n kept)) × (result ≤ kept) }
{
    if !is_kept(kept, i) {
        return kept;
    }
    let bit = 1u64 << i;
    let rest = kept - bit;
    if differs(m, bytes, n, rest) {
        return rest;
    }
    kept
}
