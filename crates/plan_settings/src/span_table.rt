// The table that the program plan_settings prints with --spans: a line for each X of the command line. What it prints is what the proved function of
// `plan::spans` answers.
use crate::arguments::argument;
use crate::faults::{Argument, Fault, in_range, within};
use crate::text::{Nanoseconds, profile_note};
use refused::Refusal;
use std::io;

// The greatest X that is read.
const MOST: u64 = 999999999999999999;

fn print_head(rt: &impl Print, s: rules::Setting) -> io::Result<()> {
    print!(rt;
        "W {}, tRC {}, tFAW {}, N {}, tD {}, L {}",
        s.w, s.trc, s.tfaw, s.n, s.td, s.l
    )?;
    println!(rt;
        "{} (ticks; 4 ticks are a nanosecond)",
        profile_note(s.profile)
    )
}

// Why the setting is refused. It has no more banks than the profile, so that only its history can be above it.
fn print_refusal(rt: &impl Print, why: Refusal, mark: u64) -> io::Result<()> {
    print!(rt; "The setting is refused: refusal {}: ", u32::from(why))?;
    match why {
        Refusal::OutOfRange => println!(rt; "a number is out of its range"),
        Refusal::ShortWindow => {
            println!(rt; "W - 1 is below 2 x N x tRC, two bursts of N do not fit in the window")
        }
        Refusal::BadDelay => println!(rt; "tD is below tRC or above W / 2"),
        Refusal::LongHistory => {
            let limits = setting::wide_limits();
            println!(rt; "tD needs a history of more than {} places", limits.history)
        }
        Refusal::AboveProfile => {
            let card = setting::profile(mark);
            println!(rt; "tD needs a history of more than {} places", card.history)
        }
        _ => println!(rt; "B is above L"),
    }
}

// The line of a span of x ticks.
fn print_line(rt: &impl Print, s: rules::Setting, x: u64) -> io::Result<()> {
    match plan::spans::span(s, x) {
        Ok(times) => println!(rt; " {x:>12} {} {times:>12}", Nanoseconds(x)),
        Err(why) => print_refusal(rt, why, s.profile),
    }
}

// Each number of the setting is in its range, and each word from argument `first` to the last of `count` is an X; else the first that is not.
pub fn check_spans(
    rt: &HostRuntime,
    s: rules::Setting,
    first: usize,
    count: usize,
) -> Result<(), Fault> {
    in_range(setting::wide_limits(), s)?;
    within(Argument::Td, s.td, 536870912)?;
    for i in first..count {
        let x = argument(rt, i, MOST).ok_or(Fault::NoNumber {
            argument: Argument::X,
            most: MOST,
        })?;
        within(Argument::X, x, MOST)?;
    }
    Ok(())
}

// The lines of the X from argument `first` to the last of `count`.
fn print_lines(rt: &HostRuntime, s: rules::Setting, first: usize, count: usize) -> io::Result<()> {
    println!(rt; "            X     nanoseconds      at most")?;
    for i in first..count {
        if let Some(x) = argument(rt, i, MOST) {
            print_line(rt, s, x)?;
        }
    }
    Ok(())
}

// The table for these X, or the refusal of the setting.
pub fn print_spans(
    rt: &HostRuntime,
    s: rules::Setting,
    first: usize,
    count: usize,
) -> io::Result<()> {
    print_head(rt, s)?;
    match plan::spans::span(s, 1) {
        Ok(_) => print_lines(rt, s, first, count),
        Err(why) => print_refusal(rt, why, s.profile),
    }
}
