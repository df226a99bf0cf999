// What a setting is to the calls: the struct that its ten words hold, and the limits that it is tested with.
ghost use Rattle.std.specs.Prelude.{◌≡◌};
ghost use Rattle.rules.specs.Setting.{setting_of, known, profile_of};
ghost use Rattle.rules.specs.Policy.{limits01, limits02};

// The setting that the ten words hold: nine in the order of document 01's table, and the profile mark.
// Kept: an `impl From<&[u64; 10]> for rules::Setting` may stand in no crate but `rules`, which has types and no code (the orphan rule).
pub fn load(words: &[u64; 10]) -> rules::Setting
    ensures { result ≡ setting_of words.now }
{
    rules::Setting {
        w: words[0],
        trc: words[1],
        tfaw: words[2],
        n: words[3],
        td: words[4],
        l: words[5],
        q: words[6],
        banks: words[7],
        threads: words[8],
        profile: words[9],
    }
}

// The limits of the calls with 16-bit counters: N to 32,768, H to 4,096. The limits of both widths stand here and nowhere else in the code.
pub fn narrow_limits() -> rules::Limits
    ensures { result ≡ limits01 }
{
    rules::Limits {
        threshold: 32768,
        history: 4096,
    }
}

// The limits of the calls with 32-bit counters: N to 2^20, H to 32,768.
pub fn wide_limits() -> rules::Limits
    ensures { result ≡ limits02 }
{
    rules::Limits {
        threshold: 1048576,
        history: 32768,
    }
}

// Whether a profile has this mark: 0 is the large card, 1 the small one.
// Kept: the mark stays a number, since it is a word of the caller's setting (C interface), and one that no profile has is refusal 1.
pub fn is_known(mark: u64) -> bool
    ensures { result ≡ known mark }
{
    mark < 2
}

// The limits of the profile with this mark, those of the large card where none has it. The small card's stand here and nowhere else in the code.
pub fn profile(mark: u64) -> rules::Profile
    ensures { result ≡ profile_of mark }
{
    if mark == 1 {
        return rules::Profile {
            banks: 4,
            history: 1024,
        };
    }
    rules::Profile {
        banks: 16,
        history: 2147483648,
    }
}
