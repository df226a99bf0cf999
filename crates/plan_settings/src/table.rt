// The table that the program plan_settings prints: a line for each threshold, and the lines below it. What it prints of a threshold is what the proved
// functions of `plan`, `plan::interval` and `plan::costs` answer, at a width of the counters.
ghost use Rattle.std.specs.Prelude.{◌^◌, ◌≤◌};

use crate::text::{Nanoseconds, profile_note};
use plan::costs::Width;
use refused::Refusal;
use std::io;

fn print_head(rt: &impl Print, width: Width, s: rules::Setting) -> io::Result<()> {
    let counters = if width.counter == 4 {
        ", 32-bit counters"
    } else {
        ""
    };
    let profile = profile_note(s.profile);
    print!(rt;
        "W {}, tRC {}, tFAW {}, L {}{counters}{profile}",
        s.w, s.trc, s.tfaw, s.l
    )?;
    print!(rt; " (ticks; 4 ticks are a nanosecond); bytes of the four buffers for ")?;
    println!(rt; "{} banks and {} threads", s.banks, s.threads)?;
    println!(rt;
        "           N    least tD    nanoseconds           H           B greatest tD       bytes"
    )
}

// Why no delay is accepted at these limits under the profile with this mark. The setting has no more banks than the profile, so that only its history
// can be above it.
fn print_reason(rt: &impl Print, why: Refusal, limits: rules::Limits, mark: u64) -> io::Result<()> {
    print!(rt; "refusal {}: ", u32::from(why))?;
    match why {
        Refusal::OutOfRange => println!(rt; "a field is out of its range"),
        Refusal::ShortWindow => {
            println!(rt; "W - 1 is below 2 x N x tRC, two bursts of N do not fit in the window")
        }
        Refusal::BadDelay => {
            println!(rt; "the smallest delay with B at most L is below tRC or above W / 2")
        }
        Refusal::LongHistory => {
            print!(rt; "the smallest delay with B at most L")?;
            println!(rt; " needs a history of more than {} places", limits.history)
        }
        Refusal::AboveProfile => {
            print!(rt; "the least delay of the large profile")?;
            let card = setting::profile(mark);
            println!(rt; " needs a history of more than {} places", card.history)
        }
        _ => println!(rt; "B is above L with every delay from 1 to 2^29"),
    }
}

// The line of the setting's threshold.
fn print_line(rt: &impl Print, width: Width, s: rules::Setting) -> io::Result<()> {
    match plan::interval::delays(width.limits, s) {
        Ok(delays) => {
            let least = delays.least;
            let c = plan::costs::costs(width, s, least);
            print!(rt; "{:>12}{least:>12}{}", s.n, Nanoseconds(least))?;
            println!(rt;
                "{:>12}{:>12}{:>12}{:>12}",
                c.history, c.bound, delays.greatest, c.bytes
            )
        }
        Err(why) => {
            print!(rt; "{:>12} has no delay: ", s.n)?;
            print_reason(rt, why, width.limits, s.profile)
        }
    }
}

fn print_threshold(rt: &impl Print, width: Width, s: rules::Setting, n: u64) -> io::Result<()> {
    print_line(rt, width, plan::interval::with_threshold(s, n))
}

fn print_trade(rt: &impl Print) -> io::Result<()> {
    println!(rt;
        "A larger N blacklists fewer well-behaved rows, and needs a delay and a history that are as long or longer."
    )?;
    println!(rt;
        "Every delay from the least to the greatest is accepted; a longer one never raises B and never shortens the history."
    )
}

// The one threshold that is given.
pub fn print_one(rt: &impl Print, width: Width, s: rules::Setting) -> io::Result<()> {
    print_head(rt, width, s)?;
    print_line(rt, width, s)?;
    print_trade(rt)
}

// The powers of two below the last threshold that has a delay.
// Kept: no plainer. The threshold doubles, so a range would need a shift and a second end.
fn print_powers(rt: &impl Print, width: Width, s: rules::Setting, last: u64) -> io::Result<()>
    requires { last ≤ 2 ^ 20 }
{
    let mut n: u64 = 1;
    while n < last {
        print_threshold(rt, width, s, n)?;
        n = 2 * n;
    }
    Ok(())
}

// The powers of two, the last threshold that has a delay, and the one after it, which has none.
pub fn print_table(rt: &impl Print, width: Width, s: rules::Setting) -> io::Result<()> {
    print_head(rt, width, s)?;
    let limits = width.limits;
    let last = plan::last_threshold(limits, s);
    print_powers(rt, width, s, last)?;
    if last > 0 {
        print_threshold(rt, width, s, last)?;
    }
    if last < limits.threshold {
        print_threshold(rt, width, s, last + 1)?;
        println!(rt; "             and no larger N has one.")?;
    }
    print_trade(rt)
}
