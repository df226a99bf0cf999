// A counter of 32 bits, and the limits of its width (document 02, a).
ghost use Rattle.std.proofs.Common.{lit≤};
ghost use Rattle.rules.specs.Policy.{limits02};

use crate::counter::Counter;

impl Counter for u32 {
    ghost value = { λ n. n };

    ghost limits = { limits02 };

    ghost threshold_most = { lit≤ tt };

    ghost history_most = { lit≤ tt };

    fn zero() -> u32 {
        0
    }

    fn number(self) -> u64 {
        u64::from(self)
    }

    fn threshold(n: u64) -> u32 {
        n as u32
    }

    fn least(self, other: u32) -> u32 {
        self.min(other)
    }

    #[tactic(auto, unfolding(rules::specs::Filter::raised))]
    fn raise(self, n: u32) -> u32 {
        if self < n { self + 1 } else { self }
    }
}
