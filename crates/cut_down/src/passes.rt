// The passes over a selection of a log's records: "Try leaving out from first to last, keep each removal that still differs, and repeat whole passes until
// one removes none" (document 02, k). A selection is a number, bit i for record i.
ghost use Rattle.std.specs.Prelude.{◌≡◌, ◌^◌, ◌-◌, ◌≤◌, length};
ghost use Rattle.rules.specs.Policy.{narrow};
ghost use Rattle.log_format.specs.Claims.{records_of, WellFormed};
ghost use Rattle.cut_rules.specs.selections.Selections.{pass, cut_down, word, bits};
ghost use Rattle.cut_rules.specs.Cut.{differs_with};

use crate::left_out::attempt;
use crate::memory::Memory;

// One pass, from the first record to the last.
fn pass(m: &mut Memory, bytes: &[u8], n: u64, kept: u64) -> u64
    requires { WellFormed bytes.now × (n ≡ length (records_of bytes.now)) × (n ≤ 64) }
    ensures { (bits n result ≡ pass (differs_with narrow bytes.now) (bits n kept)) × (result ≤ kept) }
{
    let mut left = kept;
    for i in 0..n {
        left = attempt(m, bytes, n, i, left);
    }
    left
}

// The selection that the passes come to from all n records, which `all` says: a pass that removes none leaves the number.
// It rules out: one pass only, a pass from the last record to the first, and a selection that no longer differs.
pub fn passes(m: &mut Memory, bytes: &[u8], n: u64, all: u64) -> u64
    requires { WellFormed bytes.now × (n ≡ length (records_of bytes.now)) × (n ≤ 64) × (all ≡ 2 ^ n - 1) }
    ensures { result ≡ word (cut_down (differs_with narrow bytes.now) n) }
{
    let mut kept = all;
    loop {
        let left = pass(m, bytes, n, kept);
        if left == kept {
            return kept;
        }
        kept = left;
    }
}
