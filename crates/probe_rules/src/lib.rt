// Two probes on one channel (document 02, i): why a call about them is refused, and in specs/ the verdict about what they recorded, what it means and what is
// claimed of it. In the crate `probes` the module `pairs` looks at the records, and the root has the call.
#![tactic(auto)]

ghost use Rattle.std.specs.Prelude.{◌≡◌};
ghost use Rattle.probe_rules.specs.Probes.{refusal_number};

// Why a call about two probes is refused, with the number that C gets.
#[derive(Clone, Copy, Debug, PartialEq, Eq)]
pub enum ProbeRefusal {
    // A list has more records than one of its buffers has cells.
    ShortBuffer = 6,
    // A jitter above 1,000 or a tick of 2^62 or more.
    BadInput = 18,
}

impl From<ProbeRefusal> for u32 {
    ghost from_gives = { λ refusal number. number ≡ refusal_number refusal };

    fn from(refusal: ProbeRefusal) -> u32 {
        refusal as u32
    }
}

// The verdict about two lists of recorded activations: `Ok(Some(number))` where they fit, and the least offset d is `number` less 1,000; `Ok(None)` where
// they do not fit.
pub type Verdict = Result<Option<u64>, ProbeRefusal>;
