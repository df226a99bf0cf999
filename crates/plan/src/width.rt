// A width of the filter counters, with what the code serves of it.
ghost use Rattle.std.specs.Prelude.{◌≤◌};
ghost use Rattle.plan.specs.Served.{Served};

// A width of the filter counters.
// Kept: what may not change. `costs` takes each width with limits that are served and counters of up to 4 bytes, so an enum of the two widths would ask more.
#[derive(Clone, Copy)]
pub struct Width {
    // The limits of its calls.
    pub limits: rules::Limits,
    // The bytes of a counter.
    pub counter: u64,
    // The limits that the code serves, and the bytes that it counts with.
    pub ghost served: { Served limits × (counter ≤ 4) },
}
