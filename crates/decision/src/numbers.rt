// The numbers that C and a log give an answer: its own, the wait tick and the openings left.
ghost use Rattle.std.specs.Prelude.{◌≡◌, [], ◌∷◌};
ghost use Rattle.rules.specs.Answers.{cause_number, answer_number, answer_wait, answer_left};

use rules::{Answer, Cause};

// Kept: functions, here and below. A `From` for these types could stand in `rules` alone, which has types and no code (a rule of the project).
fn cause_number(c: Cause) -> u64
    ensures { result ≡ cause_number c }
{
    match c {
        Cause::Bank => 1,
        Cause::Rank => 2,
        Cause::Row => 3,
    }
}

// The number of an answer, as in a log.
pub fn answer_number(a: Answer) -> u64
    ensures { result ≡ answer_number a }
{
    match a {
        Answer::Opened { left: _ } => 0,
        Answer::Wait { cause, until: _ } => cause_number(cause),
        Answer::Quota => 4,
    }
}

// The wait tick of an answer, 0 for opened and quota.
pub fn answer_wait(a: Answer) -> u64
    ensures { result ≡ answer_wait a }
{
    match a {
        Answer::Opened { left: _ } => 0,
        Answer::Wait { cause: _, until } => until,
        Answer::Quota => 0,
    }
}

// The openings left of an answer, 0 for wait and quota.
pub fn answer_left(a: Answer) -> u64
    ensures { result ≡ answer_left a }
{
    match a {
        Answer::Opened { left } => left,
        Answer::Wait { cause: _, until: _ } => 0,
        Answer::Quota => 0,
    }
}

// The words that a request writes for the caller: the number of its answer, the wait tick and the openings left.
pub fn out_words(a: Answer) -> [u64; 3]
    ensures { result ≡ answer_number a ∷ answer_wait a ∷ answer_left a ∷ [] }
{
    let number = answer_number(a);
    let wait = answer_wait(a);
    let openings = answer_left(a);
    [number, wait, openings]
}
