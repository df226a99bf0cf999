// A log in a slice of bytes, whose blocks are checked in order: what refusals 11 to 13 say of the blocks after block 0, how many records these have, and
// where a record stands.
ghost use Rattle.std.specs.Prelude.{◌≡◌, ◌+◌, ◌*◌, ◌/◌, ◌%◌, ◌≤◌, eqb, length, IfOk};
ghost use Rattle.rules.specs.Policy.{limits01};
ghost use Rattle.log_format.specs.Bytes.{block_at};
ghost use Rattle.log_format.specs.Refusals.{log_refusal_number};
ghost use Rattle.log_format.specs.Contents.{entry_in};
ghost use Rattle.log_format.specs.Claims.{later_of, records_of};
ghost use Rattle.cut_rules.specs.Cut.{blocks_refusal};
ghost use Rattle.cut_down.specs.Codes.{code};

use crate::codes::CutRefusal;
use log_format::Entry;
use log_read::slice::block_at;

// The number of the records of the blocks after block 0, or the first refusal.
// It rules out: one that stops at a block whose records differ, passes over a cut end, or counts the records of the last block only.
pub fn later(bytes: &[u8]) -> Result<u64, CutRefusal>
    requires { 1 ≤ length bytes.now / 512 }
    ensures coded { code result ≡ log_refusal_number (blocks_refusal limits01 1 0 (later_of bytes.now) (eqb (length bytes.now % 512) 0)) }
    ensures counted { IfOk result (λ records. records ≡ length (records_of bytes.now)) }
{
    let n = bytes.len() / 512;
    let mut before: u64 = 0;
    let mut records: u64 = 0;
    // The loop goes over numbers, since the number of a block is compared with the one that stands in it.
    for b in 1..n {
        let block = block_at(bytes, b);
        log_read::block::refusal(&block, b as u64, before)?;
        before = log_read::contents::count(&block);
        records += before;
    }
    if bytes.len() % 512 != 0 {
        return Err(CutRefusal::Cut);
    }
    Ok(records)
}

// Record i of a log whose blocks before the last have 20 records each.
pub fn record_at(bytes: &[u8], i: u64) -> Entry
    requires { 512 * (1 + i / 20) + 512 ≤ length bytes.now }
    ensures { result ≡ entry_in (block_at bytes.now (1 + i / 20)) (i % 20) }
{
    let b = 1 + i / 20;
    let k = i % 20;
    let block = block_at(bytes, b as usize);
    log_read::contents::entry_at(&block, k as usize)
}
