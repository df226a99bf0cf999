// The numbers of a setting on the command line of the program plan_settings. A word that is no number is reported.
ghost use Rattle.std.specs.Prelude.{◌≤◌};

use crate::arguments::argument;
use crate::faults::{Argument, Fault, report};
use std::io;

// The greatest number that is read.
const MOST: u64 = 4294967295;

// W, TRC, TFAW and L.
#[derive(Clone, Copy, Debug, PartialEq, Eq)]
pub struct Timing {
    pub w: u64,
    pub trc: u64,
    pub tfaw: u64,
    pub l: u64,
}

// One of the six numbers before the first X, which is reported where it is none; options is the count of words before the first.
pub fn field(rt: &HostRuntime, options: usize, name: Argument) -> io::Result<Option<u64>>
    requires { options ≤ 3 }
{
    let n = argument(rt, options + name.place(), MOST);
    if n.is_none() {
        report(
            rt,
            Fault::NoNumber {
                argument: name,
                most: MOST,
            },
        )?;
    }
    Ok(n)
}

// The four numbers, where each is one.
fn timing_of(
    w: Option<u64>,
    trc: Option<u64>,
    tfaw: Option<u64>,
    l: Option<u64>,
) -> Option<Timing> {
    Some(Timing {
        w: w?,
        trc: trc?,
        tfaw: tfaw?,
        l: l?,
    })
}

// The first four, each of which is reported where it is none.
pub fn read_timing(rt: &HostRuntime, options: usize) -> io::Result<Option<Timing>>
    requires { options ≤ 3 }
{
    let w = field(rt, options, Argument::W)?;
    let trc = field(rt, options, Argument::Trc)?;
    let tfaw = field(rt, options, Argument::Tfaw)?;
    let l = field(rt, options, Argument::L)?;
    Ok(timing_of(w, trc, tfaw, l))
}

// The threshold that is given, or 1 where none is.
pub fn threshold(rt: &HostRuntime, options: usize, is_one: bool) -> io::Result<Option<u64>>
    requires { options ≤ 3 }
{
    if is_one {
        return field(rt, options, Argument::N);
    }
    Ok(Some(1))
}

// The setting of the most banks of its profile and 8 threads. Q plays no part.
pub fn setting_of(t: Timing, n: u64, td: u64, mark: u64) -> rules::Setting {
    let card = setting::profile(mark);
    rules::Setting {
        w: t.w,
        trc: t.trc,
        tfaw: t.tfaw,
        n,
        td,
        l: t.l,
        q: 1,
        banks: card.banks,
        threads: 8,
        profile: mark,
    }
}
