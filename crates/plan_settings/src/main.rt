// plan_settings [--wide] [--small] W TRC TFAW L [N], in whole ticks: the least and the greatest delay tD that is accepted, over thresholds N
// or for the one given, with H, B and the bytes of the lent buffers, at the limits of 16-bit or of 32-bit counters, under the large profile
// or the small one. plan_settings [--wide] [--small] --spans W TRC TFAW L N TD X ..: the most activations of a row in each span of X ticks, at the limits
// of 32-bit counters. The table goes to standard output, an error to standard error.
#![tactic(auto)]

mod arguments;
mod faults;
mod fields;
mod span_table;
mod table;
mod text;

ghost use Rattle.std.specs.Prelude.{◌≤◌};

use crate::arguments::{argument_count, read_options};
use crate::faults::{Argument, Fault, in_range, report};
use crate::fields::{field, read_timing, setting_of, threshold};
use plan::costs::Width;
use std::io;

// The table of delays, in which the delay of the setting plays no part.
fn print_delays(rt: &HostRuntime, s: rules::Setting, width: Width, is_one: bool) -> io::Result<()> {
    if let Err(fault) = in_range(width.limits, s) {
        return report(rt, fault);
    }
    if is_one {
        crate::table::print_one(rt, width, s)
    } else {
        crate::table::print_table(rt, width, s)
    }
}

// The delays at this width, of the profile with this mark, from the words behind the options.
fn read_delays(
    rt: &HostRuntime,
    options: usize,
    width: Width,
    mark: u64,
    is_one: bool,
) -> io::Result<()>
    requires { options ≤ 3 }
{
    let timing = read_timing(rt, options)?;
    let threshold = threshold(rt, options, is_one)?;
    if let (Some(t), Some(n)) = (timing, threshold) {
        print_delays(rt, setting_of(t, n, 1, mark), width, is_one)?;
    }
    Ok(())
}

// The table of spans, for the X from argument `first` to the last of `count`.
fn print_spans(rt: &HostRuntime, s: rules::Setting, first: usize, count: usize) -> io::Result<()> {
    if let Err(fault) = crate::span_table::check_spans(rt, s, first, count) {
        return report(rt, fault);
    }
    crate::span_table::print_spans(rt, s, first, count)
}

// The spans, of the profile with this mark, from the words behind the options.
fn read_spans(rt: &HostRuntime, options: usize, mark: u64, count: usize) -> io::Result<()>
    requires { options ≤ 3 }
{
    let timing = read_timing(rt, options)?;
    let threshold = field(rt, options, Argument::N)?;
    let delay = field(rt, options, Argument::Td)?;
    if let (Some(t), Some(n), Some(td)) = (timing, threshold, delay) {
        print_spans(
            rt,
            setting_of(t, n, td, mark),
            options + Argument::X.place(),
            count,
        )?;
    }
    Ok(())
}

// The count of the arguments is tested; options is that of the words before the first number.
fn start_delays(rt: &HostRuntime, options: usize, width: Width, mark: u64) -> io::Result<()>
    requires { options ≤ 3 }
{
    let count = argument_count(rt);
    if count < 5 + options || count > 6 + options {
        return report(rt, Fault::Count);
    }
    read_delays(rt, options, width, mark, count == 6 + options)
}

fn start_spans(rt: &HostRuntime, options: usize, mark: u64) -> io::Result<()>
    requires { options ≤ 3 }
{
    let count = argument_count(rt);
    if count < 8 + options {
        return report(rt, Fault::SpanCount);
    }
    read_spans(rt, options, mark, count)
}

fn main(rt: HostRuntime) -> io::Result<()> {
    let given = read_options(&rt);
    // The mark of the small profile is 1, that of the large one 0.
    let mark = u64::from(given.small);
    if given.spans {
        start_spans(&rt, given.words, mark)
    } else {
        let width = plan::costs::width_of(given.wide);
        start_delays(&rt, given.words, width, mark)
    }
}
