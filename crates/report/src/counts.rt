// The two lines of counts with which the text of a log that was judged begins, whether it agrees or differs.
ghost use Rattle.std.specs.Prelude.{◌≤◌, ◌≡◌, length, take};
ghost use Rattle.report.specs.Counts.{count_lines};

use crate::line::put_line;

// The two lines of a log that was judged.
pub fn put_counts(out: &mut [u8], records: u64, opened: u64) -> usize
    requires { 128 ≤ length out.old }
    ensures { (result ≤ 57) × (take result out.new ≡ count_lines records opened) }
{
    let a = put_line(out, 0, b"records ", records);
    put_line(out, a, b"opened ", opened)
}
