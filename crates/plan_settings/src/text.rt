// Times and marks in the tables that the program plan_settings prints on standard output. A write that fails ends the program with its error.
use std::fmt;

// Ticks of a quarter nanosecond as nanoseconds with two decimals, in a column of 15.
#[derive(Clone, Copy, Debug, PartialEq, Eq)]
pub struct Nanoseconds(pub u64);

impl fmt::Display for Nanoseconds {
    fn fmt<W: fmt::Write>(&self, f: &mut fmt::Formatter<W>) -> fmt::Result {
        let whole = self.0 / 4;
        let hundredths = self.0 % 4 * 25;
        write!(f, "{whole:>12}.{hundredths:02}")
    }
}

// What the first line of a table says of the profile with this mark.
pub fn profile_note(mark: u64) -> &'static str {
    if mark == 1 { ", small profile" } else { "" }
}
