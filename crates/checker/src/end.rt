// The report at the end of a log's input, for the checker and for a caller that reads the blocks itself.
ghost use Rattle.std.specs.Prelude.{◌≡◌};
ghost use Rattle.log_format.specs.Verdict.{ended};
ghost use Rattle.judge.specs.Follow.{progress_of, report_of};

use tally::{Progress, Report};

// The end of the input, of which nothing is left behind the last whole block, or some bytes are.
pub fn at_end(p: Progress, whole: bool) -> Report
    ensures { result ≡ report_of (ended (progress_of p) whole) }
{
    match (whole, p.blocks) {
        (true, 0) => Report::Refused {
            number: 11,
            blocks: 0,
        },
        (true, _) => Report::Agrees {
            records: p.records,
            opened: p.opened,
        },
        (false, blocks) => Report::Refused { number: 11, blocks },
    }
}
