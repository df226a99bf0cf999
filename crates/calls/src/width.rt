// The limits of the setting that go with a width of the filter counters, for the calls that test them.
ghost use Rattle.std.specs.Prelude.{◌≡◌};

use filter::counter::Counter;
use rules::Limits;
use setting::{narrow_limits, wide_limits};

pub trait Width: Counter {
    fn width_limits() -> Limits
        ensures { result ≡ Self.limits };
}

impl Width for u16 {
    fn width_limits() -> Limits {
        narrow_limits()
    }
}

impl Width for u32 {
    fn width_limits() -> Limits {
        wide_limits()
    }
}
