// What is counted and reported of one record of a log: how far a log is read, what is said of it, and the step from the model's reply to both. No buffer
// of the model is known here.
#![tactic(auto)]

ghost use Rattle.std.specs.Prelude.{◌≡◌, ◌&&◌, cond, ◌≤◌, eqb};
ghost use Rattle.tally.specs.Settled.{refused_by, settled, Room};

use log_format::Entry;

// How far a log is read: whole blocks, records judged, records that the rules open, records of the last block.
#[derive(Clone, Copy, Debug, PartialEq, Eq)]
pub struct Progress {
    pub blocks: u64,
    pub records: u64,
    pub opened: u64,
    pub last: u64,
}

// What the checker says of a log: a refusal's number and the whole blocks before the one at fault, or the counts of the records judged
// and of those that the rules open, with the block and the place in it of a record that differs.
#[derive(Clone, Copy, Debug, PartialEq, Eq)]
pub enum Report {
    Refused {
        number: u64,
        blocks: u64,
    },
    Agrees {
        records: u64,
        opened: u64,
    },
    Differs {
        records: u64,
        opened: u64,
        block: u64,
        place: u64,
    },
}

// The record claims this answer and this wait tick.
fn claims(e: Entry, number: u64, wait: u64) -> bool
    ensures { result ≡ (eqb e.answer number && eqb e.wait wait) }
{
    e.answer == number && e.wait == wait
}

// 1 for the number of an answer that opens, else 0.
pub fn opened_by(number: u64) -> u64
    ensures { (result ≡ cond (eqb number 0) 1 0) × (result ≤ 1) }
{
    u64::from(number == 0)
}

// The log ends with this refusal, after the whole blocks before this one.
pub fn refused(number: u64, p: Progress) -> Report
    ensures { result ≡ refused_by number p }
{
    Report::Refused {
        number,
        blocks: p.blocks,
    }
}

// A record that the model answered with this number and wait tick: it is counted, and the log is over, with the report in Err, where it claims others.
pub fn settle(
    p: Progress,
    e: Entry,
    number: u64,
    wait: u64,
    opened: u64,
) -> Result<Progress, Report>
    requires { Room p 1 × (opened ≤ 1) }
    ensures { result ≡ settled p e number wait opened }
{
    let progress = Progress {
        records: p.records + 1,
        opened: p.opened + opened,
        last: p.last + 1,
        ..p
    };
    if claims(e, number, wait) {
        return Ok(progress);
    }
    Err(Report::Differs {
        records: progress.records,
        opened: progress.opened,
        block: progress.blocks,
        place: progress.last,
    })
}
