// The call for C that cuts a log down to records that still differ (document 02, k); the crate `cut_down_c` exports it. It returns 0 when it answered, and
// else the number of its refusal, and then leaves out as it was. All work memory is local, and the log is only read. What is refused of the log stands in
// `cut_refusal` and `blocks`, their numbers in `codes`, a run of a selection in `run`, `kept` and `selection`, the passes in `left_out` and `passes`.
#![tactic(auto)]

mod blocks;
mod codes;
mod cut_refusal;
mod kept;
mod left_out;
mod memory;
mod passes;
mod run;
mod selection;

ghost use Rattle.std.specs.Prelude.{◌≡◌, List, ℕ};
ghost use Rattle.rules.specs.Policy.{narrow};
ghost use Rattle.cut_rules.specs.Cut.{cut_of, code_of, out_of};
ghost use Rattle.cut_down.specs.Codes.{code, written};

use crate::codes::CutRefusal;
use crate::cut_refusal::log_refusal;
use crate::memory::zeros;
use crate::passes::passes;
use crate::run::differs;
use crate::selection::all_of;

// The selection of the records that stay.
fn cut(log: &[u8]) -> Result<u64, CutRefusal>
    ensures { (before : List ℕ) → (code result ≡ code_of (cut_of narrow log.now)) × (written result before ≡ out_of (cut_of narrow log.now) before) }
{
    let n = log_refusal(log)?;
    if n > 64 {
        return Err(CutRefusal::TooMany);
    }
    let mut m = zeros();
    let all = all_of(n);
    if !differs(&mut m, log, n, all) {
        return Err(CutRefusal::Agrees);
    }
    let left = passes(&mut m, log, n, all);
    Ok(left)
}

// It rules out: a call that answers with all records, with no record, or with a selection that no longer differs or could lose a record; one that gives 21
// for a log of more than 64 records, that does not look at the blocks behind a record that differs, or that writes out where it refuses.
pub fn throttle_cut_down(log: &[u8], out: &mut [u64; 1]) -> u32
    ensures { (result ≡ code_of (cut_of narrow log.now)) × (out.new ≡ out_of (cut_of narrow log.now) out.old) }
{
    match cut(log) {
        Ok(kept) => {
            *out = [kept];
            0
        }
        Err(refusal) => u32::from(refusal),
    }
}
