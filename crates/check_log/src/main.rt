// The program check_log: reads a log from standard input, a block of 512 bytes at a time (`input`), and writes the report of document 01. It stops at the
// first event and reads no further block. The report is proved to be the verdict of some list of bytes, and what is written its text. That these are the
// bytes of the input, in their order, is not proved: of what a read puts into the block nothing is promised.
#![tactic(auto)]

mod input;

ghost use Rattle.std.specs.Prelude.{ℕ, ◌≡◌, List, IfOk};
ghost use Rattle.rules.specs.Policy.{narrow};
ghost use Rattle.log_format.specs.Verdict.{verdict};
ghost use Rattle.sound.specs.Held.{Same};
ghost use Rattle.judge.specs.Follow.{going, report_of};
ghost use Rattle.judge.specs.Blocks.{read_in, Carried, Ready, JudgedBlock};
ghost use Rattle.report.specs.Text.{text_of};
ghost use Rattle.check_log.specs.Fills.{judge_filled};

use crate::input::Filled;
use judge::reading::Reading;
use sound::buffers::Buffers;
use std::io::{self, Stdin, Stdout};
use tally::Report;

// The step from how the block was filled to a report, or to the next block.
// It rules out: an input that is cut, or cannot be read, reported as one that is at its end.
fn judge_filled(
    filled: Filled,
    x: Reading,
    m: &mut Buffers<'_, u16>,
    block: &[u8; 512],
) -> Result<Reading, Report>
    requires { Ready (read_in x m.old) × Carried x }
    ensures same { Same m.old m.new }
    ensures judged { JudgedBlock x.progress.blocks (going (λ y. read_in y m.new) result) (judge_filled filled (read_in x m.old) block.now) }
    ensures carried { IfOk result Carried }
{
    match filled {
        Filled::Whole => checker::block::judge_block(x, m, block),
        Filled::End => Err(checker::end::at_end(x.progress, true)),
        Filled::Cut => Err(checker::end::at_end(x.progress, false)),
    }
}

// The report on standard input. A block that goes on has a number of 32 bits, so the loop ends.
fn run(mut input: Stdin) -> Report
    ensures { (bytes : List ℕ) × (result ≡ report_of (verdict narrow bytes)) }
{
    let mut block = [0u8; 512];
    let mut m = Buffers {
        counters: &mut [0; 32768],
        ticks: &mut [0; 4096],
        rows: &mut [0; 4096],
        threads: &mut [0; 1536],
    };
    let mut x = judge::unread::start();
    loop {
        let filled = crate::input::fill(&mut input, &mut block);
        match judge_filled(filled, x, &mut m, &block) {
            Ok(next) => x = next,
            Err(report) => return report,
        }
    }
}

// Writes the text of the report of some log, from one buffer. It is the only function here that writes, and a write that fails ends the program with its
// error.
fn print(out: Stdout, text: &[u8]) -> io::Result<()>
    requires { (bytes : List ℕ) × (text.now ≡ text_of (report_of (verdict narrow bytes))) }
{
    out.write_all(text)
}

fn main(rt: HostRuntime) -> io::Result<()> {
    let r = run(rt.stdin());
    let mut text = [0u8; 128];
    let n = report::lay(r, &mut text);
    print(rt.stdout(), &text[..n])
}
