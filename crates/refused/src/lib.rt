// The refusals of a call by name, in the order in which a call is tested for them, and the number that C gets for each. A function that tests
// gives Result<(), Refusal>.
// `rules` has types but no code, so they stand in a crate of their own; the rules' own refusals are those of rules/specs/Answers.antt.
#![tactic(auto)]

ghost use Rattle.std.specs.Prelude.{◌≡◌};
ghost use Rattle.refused.specs.Numbers.{number_of, code_of};

// What a call is refused for.
#[derive(Clone, Copy, Debug, PartialEq, Eq)]
pub enum Refusal {
    // 1: a field out of range, or other than 64 seeds.
    OutOfRange,
    // 2: the window is too short for the free activations of two bursts.
    ShortWindow,
    // 3: the delay is below the gap of activations or above the epoch.
    BadDelay,
    // 4: the history is longer than the limit of the width.
    LongHistory,
    // 5: the row bound is above L.
    AboveLimit,
    // 16: the setting is above its profile.
    AboveProfile,
    // 6: a buffer is too short.
    ShortBuffer,
    // 7: the memory holds what no call leaves there.
    BadMemory,
    // 8: a bank or a thread outside the setting.
    OutsideSetting,
    // 9: a tick before the last one, or 2^62 or more.
    BadTick,
    // 10: a done where the thread has nothing in flight.
    NoneInFlight,
}

impl From<Refusal> for u32 {
    ghost from_gives = { λ r n. n ≡ number_of r };

    fn from(r: Refusal) -> u32 {
        match r {
            Refusal::OutOfRange => 1,
            Refusal::ShortWindow => 2,
            Refusal::BadDelay => 3,
            Refusal::LongHistory => 4,
            Refusal::AboveLimit => 5,
            Refusal::AboveProfile => 16,
            Refusal::ShortBuffer => 6,
            Refusal::BadMemory => 7,
            Refusal::OutsideSetting => 8,
            Refusal::BadTick => 9,
            Refusal::NoneInFlight => 10,
        }
    }
}

// The number that a call gives back: 0 where it is not refused.
pub fn code(r: Result<(), Refusal>) -> u32
    ensures { result ≡ code_of r }
{
    match r {
        Ok(()) => 0,
        Err(refusal) => u32::from(refusal),
    }
}
