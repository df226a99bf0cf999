// A counter of 16 bits, and the limits of its width.
ghost use Rattle.std.proofs.Common.{lit≤};
ghost use Rattle.rules.specs.Policy.{limits01};

use crate::counter::Counter;

impl Counter for u16 {
    ghost value = { λ n. n };

    ghost limits = { limits01 };

    ghost threshold_most = { lit≤ tt };

    ghost history_most = { lit≤ tt };

    fn zero() -> u16 {
        0
    }

    fn number(self) -> u64 {
        u64::from(self)
    }

    fn threshold(n: u64) -> u16 {
        n as u16
    }

    fn least(self, other: u16) -> u16 {
        self.min(other)
    }

    #[tactic(auto, unfolding(rules::specs::Filter::raised))]
    fn raise(self, n: u16) -> u16 {
        if self < n { self + 1 } else { self }
    }
}
