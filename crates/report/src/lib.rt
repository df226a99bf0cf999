// The text of a report, in the words of document 01: lines of fixed byte strings and decimal numbers, in a buffer that the caller lends. The text is proved
// to be the one of the definition, for every report. A line stands in `line`, the lines of counts in `counts`.
#![tactic(auto)]

mod counts;
mod line;

ghost use Rattle.std.specs.Prelude.{◌≤◌, ◌≡◌, length, take};
ghost use Rattle.io.specs.Counts.{IsPrefixLen};
ghost use Rattle.report.specs.Text.{text_of};

use crate::counts::put_counts;
use crate::line::{put, put_line_of_two};
use tally::Report;

// The text of a report at the start of the buffer. The answer is its length.
// Kept: bytes put into a lent buffer and no Display: `lay` promises the text of every report and cannot fail, which may not change, and a `write!` into a
// buffer promises its text only where it gives Ok.
// It rules out: `agrees` for a record that differs, a count under the other's word, the block and the place exchanged.
pub fn lay(report: Report, out: &mut [u8]) -> usize
    requires { 128 ≤ length out.old }
    ensures { IsPrefixLen result out.new × (take result out.new ≡ text_of report) }
{
    match report {
        Report::Refused { number, blocks } => {
            put_line_of_two(out, 0, b"refused ", number, blocks)
        }
        Report::Agrees { records, opened } => {
            let at = put_counts(out, records, opened);
            put(out, at, b"agrees\n")
        }
        Report::Differs {
            records,
            opened,
            block,
            place,
        } => {
            let at = put_counts(out, records, opened);
            put_line_of_two(out, at, b"differs ", block, place)
        }
    }
}
