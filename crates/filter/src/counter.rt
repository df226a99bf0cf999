// A counter of a counting Bloom filter: the number that it holds, and the limits of the calls with counters of its width.
ghost use Rattle.std.specs.Prelude.{◌≡◌, ℕ, ◌≤◌, ◌^◌, min};
ghost use Rattle.rules.specs.declared.Limits.{Limits};
ghost use Rattle.rules.specs.Filter.{raised};

pub trait Counter: Copy {
    // The number that a counter holds.
    ghost value: { Self → ℕ };

    // The limits of the calls with counters of this width.
    ghost limits: { Limits };

    fn zero() -> Self
        ensures { value result ≡ 0 };

    // The counter as a number.
    fn number(self) -> u64
        ensures { result ≡ value self };

    // A threshold within the limits, as a counter.
    fn threshold(n: u64) -> Self
        requires { n ≤ limits.threshold }
        ensures { value result ≡ n };

    // The lesser of two counters.
    fn least(self, other: Self) -> Self
        ensures { value result ≡ min (value self) (value other) };

    // The counter with 1 more, if it is below n.
    fn raise(self, n: Self) -> Self
        ensures { value result ≡ raised (value n) (value self) };

    ghost threshold_most: { limits.threshold ≤ 2 ^ 20 };

    ghost history_most: { limits.history ≤ 32768 };
}
