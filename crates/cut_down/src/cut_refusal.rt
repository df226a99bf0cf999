// What is refused of a log to be cut down before its records are judged: its blocks in order, each with 11, 12 and 13, and after block 0 its setting. The
// records play no part in it.
ghost use Rattle.std.specs.Prelude.{◌≡◌, length, IfOk};
ghost use Rattle.rules.specs.Policy.{limits01};
ghost use Rattle.log_format.specs.Refusals.{log_refusal_number};
ghost use Rattle.log_format.specs.Claims.{records_of};
ghost use Rattle.cut_rules.specs.Cut.{log_refusal};
ghost use Rattle.cut_down.specs.Codes.{code};

use crate::blocks::later;
use crate::codes::CutRefusal;
use log_read::slice::block_at;
use setting::house_seeds::difference;

// The number of records, or the first refusal, for every list of bytes.
// It rules out: the setting after the later blocks, the limits of the other width, and a log of no blocks that passes.
#[tactic(auto, using(crate::proofs::cut_refusal::Parts::setting_told))]
pub fn log_refusal(bytes: &[u8]) -> Result<u64, CutRefusal>
    ensures coded { code result ≡ log_refusal_number (log_refusal limits01 bytes.now) }
    ensures counted { IfOk result (λ records. records ≡ length (records_of bytes.now)) }
{
    if bytes.len() / 512 == 0 {
        return Err(CutRefusal::Cut);
    }
    let start = block_at(bytes, 0);
    log_read::block::refusal(&start, 0, 0)?;
    let s = log_read::contents::setting(&start);
    let seeds = log_read::contents::seeds(&start);
    setting::refusal(setting::narrow_limits(), s, difference(&seeds), &seeds)?;
    later(bytes)
}
