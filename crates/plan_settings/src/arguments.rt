// The command line of the program plan_settings: its words as numbers, and its options.
ghost use Rattle.std.specs.Prelude.{◌≡◌, ◌+◌, ◌^◌, ◌≤◌};
ghost use Rattle.plan_settings.specs.Decimal.{number_of};
ghost use Rattle.plan_settings.specs.Options.{words_of};

use std::env::{Env, FillError};

// The options before the first number.
#[derive(Clone, Copy, Debug, PartialEq, Eq)]
pub struct Options {
    // How many words they are.
    pub words: usize,
    // The calls with 32-bit counters are meant.
    pub wide: bool,
    // The small card is meant.
    pub small: bool,
    // Spans are asked for, and not delays.
    pub spans: bool,
}

// The number up to `most` that the word stands for.
// Kept: no plainer. `str::parse` takes text and a sign, and lets numbers above `most` pass, so three more tests would stand here.
fn read_word(word: &[u8], most: u64) -> Option<u64>
    requires { most ≤ 2 ^ 60 }
    ensures { result ≡ number_of most word.now }
{
    if word.is_empty() {
        return None;
    }
    let mut v: u64 = 0;
    for &code in word {
        if code < b'0' || code > b'9' {
            return None;
        }
        v = 10 * v + u64::from(code - b'0');
        if v > most {
            return None;
        }
    }
    Some(v)
}

// The number up to `most` of argument i. A word of more than 32 bytes, or none at that place, is no number.
pub fn argument(rt: &HostRuntime, i: usize, most: u64) -> Option<u64>
    requires { most ≤ 2 ^ 60 }
{
    let mut word = [0u8; 32];
    let n = rt.arg(i, &mut word).ok()?;
    read_word(&word[..n], most)
}

// How many arguments there are, the program's name among them.
// Kept: a rule of the project, fixed memory. `env::args` allocates each word.
pub fn argument_count(rt: &HostRuntime) -> usize {
    for i in 0..usize::MAX {
        if let Err(FillError::NotPresent) = rt.arg(i, &mut []) {
            return i;
        }
    }
    usize::MAX
}

// Whether argument i is this word. One of more than 8 bytes is none of the options.
fn is_word(rt: &HostRuntime, i: usize, word: &[u8]) -> bool {
    let mut found = [0u8; 8];
    match rt.arg(i, &mut found) {
        Ok(n) => &found[..n] == word,
        Err(_) => false,
    }
}

// The options of the command line, --wide before --small before --spans. It rules out a word that is taken for an option and sets none.
pub fn read_options(rt: &HostRuntime) -> Options
    ensures { (result.words ≡ words_of result.wide + words_of result.small + words_of result.spans) × (result.words ≤ 3) }
{
    let wide = is_word(rt, 1, b"--wide");
    let first = usize::from(wide);
    let small = is_word(rt, 1 + first, b"--small");
    let second = first + usize::from(small);
    let spans = is_word(rt, 1 + second, b"--spans");
    let third = second + usize::from(spans);
    Options {
        words: third,
        wide,
        small,
        spans,
    }
}
