// What is wrong with the arguments of the program plan_settings: a line on standard error for each fault, which begins with the name that the program
// was called by. A write that fails ends the program with its error.
// The ranges are those of document 01's table, and that of N is the width's. Whoever calls the program prints its usage.
ghost use Rattle.std.specs.Prelude.{◌≤◌};

use std::env::Env;
use std::{fmt, io};

// A number of the command line, by its name in the usage.
#[derive(Clone, Copy, Debug, PartialEq, Eq)]
pub enum Argument {
    W,
    Trc,
    Tfaw,
    L,
    N,
    Td,
    X,
}

impl Argument {
    // Its place behind the options, that of W first.
    pub fn place(self) -> usize
        ensures { result ≤ 7 }
    {
        match self {
            Argument::W => 1,
            Argument::Trc => 2,
            Argument::Tfaw => 3,
            Argument::L => 4,
            Argument::N => 5,
            Argument::Td => 6,
            Argument::X => 7,
        }
    }
}

impl fmt::Display for Argument {
    fn fmt<W: fmt::Write>(&self, f: &mut fmt::Formatter<W>) -> fmt::Result {
        match self {
            Argument::W => write!(f, "W"),
            Argument::Trc => write!(f, "TRC"),
            Argument::Tfaw => write!(f, "TFAW"),
            Argument::L => write!(f, "L"),
            Argument::N => write!(f, "N"),
            Argument::Td => write!(f, "TD"),
            Argument::X => write!(f, "X"),
        }
    }
}

// What is wrong.
#[derive(Clone, Copy, Debug, PartialEq, Eq)]
pub enum Fault {
    // So many numbers are no table of delays.
    Count,
    // So many are no table of spans.
    SpanCount,
    // The word of the argument is no number up to `most`.
    NoNumber { argument: Argument, most: u64 },
    // The number is 0 or above `high`.
    OutOfRange { argument: Argument, high: u64 },
    // W is odd or out of its range.
    BadWindow,
}

impl fmt::Display for Fault {
    fn fmt<W: fmt::Write>(&self, f: &mut fmt::Formatter<W>) -> fmt::Result {
        match self {
            Fault::Count => write!(f, "four numbers are needed, or five"),
            Fault::SpanCount => write!(f, "six numbers and one X or more are needed"),
            Fault::NoNumber { argument, most } => {
                write!(f, "{argument} is not a whole decimal number up to {most}")
            }
            Fault::OutOfRange { argument, high } => write!(
                f,
                "{argument} must be from 1 to {high}"
            ),
            Fault::BadWindow => write!(f, "W must be even and from 2 to 1073741824"),
        }
    }
}

// The fault behind the name that the program was called by. A name that is missing or longer than 4,096 bytes is left out.
pub fn report(rt: &HostRuntime, fault: Fault) -> io::Result<()> {
    let mut name = [0u8; 4096];
    if let Ok(n) = rt.arg(0, &mut name) {
        rt.stderr().write_all(&name[..n])?;
    }
    eprintln!(rt; ": {fault}")
}

// x is from 1 to high.
pub fn within(argument: Argument, x: u64, high: u64) -> Result<(), Fault> {
    if x < 1 || x > high {
        return Err(Fault::OutOfRange { argument, high });
    }
    Ok(())
}

// Every number of the setting but its delay is in its range at these limits; else the first that is not.
pub fn in_range(limits: rules::Limits, s: rules::Setting) -> Result<(), Fault> {
    if s.w < 2 || s.w > 1073741824 || s.w % 2 != 0 {
        return Err(Fault::BadWindow);
    }
    within(Argument::Trc, s.trc, 65535)?;
    within(Argument::Tfaw, s.tfaw, 65535)?;
    within(Argument::L, s.l, 16777216)?;
    within(Argument::N, s.n, limits.threshold)
}
