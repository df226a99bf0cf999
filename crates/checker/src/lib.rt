// The log checker: a whole log in a slice of bytes, block by block. Where it begins stands in `judge::unread`, a block in `block`, its records in `later` and
// `records`, where the input ends in `end`. A block is judged only through its contract; the report is proved to be the one of the log's definition of the
// verdict.
#![tactic(auto)]

pub mod block;
pub mod end;
mod later;
mod records;

ghost use Rattle.std.specs.Prelude.{◌≡◌};
ghost use Rattle.rules.specs.Policy.{narrow};
ghost use Rattle.log_format.specs.Verdict.{verdict};
ghost use Rattle.judge.specs.Follow.{report_of};

use crate::block::judge_block;
use crate::end::at_end;
use judge::unread::start;
use sound::buffers::Buffers;
use tally::Report;

// The report of a log, for every list of bytes.
// It rules out: a checker that judges half of the blocks, counts every record as opened, or accepts a log that is cut.
pub fn judge_log(bytes: &[u8]) -> Report
    ensures { result ≡ report_of (verdict narrow bytes.now) }
{
    let mut m = Buffers {
        counters: &mut [0; 32768],
        ticks: &mut [0; 4096],
        rows: &mut [0; 4096],
        threads: &mut [0; 1536],
    };
    let (blocks, rest) = bytes.as_chunks::<512>();
    let mut x = start();
    for block in blocks {
        match judge_block(x, &mut m, block) {
            Ok(next) => x = next,
            Err(report) => return report,
        }
    }
    at_end(x.progress, rest.is_empty())
}
