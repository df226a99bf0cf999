// The quota of a thread in a bank, from its index counter.
ghost use Rattle.std.specs.Prelude.{◌≡◌, ◌-◌, ◌*◌, ◌^◌, ◌≤◌, ◌<◌};
ghost use Rattle.rules.specs.Quota.{half_even, quota_even};

// a / b to the nearest whole number, an exact half to the even one.
fn nearest(a: u32, b: u32) -> u32
    requires { (1 ≤ b) × (b ≤ 2 ^ 24) × (a ≤ 255 * 2 ^ 24) }
    ensures { result ≡ half_even a b }
{
    let whole = a / b;
    let rest = a % b;
    let twice = 2 * rest;
    if twice < b {
        return whole;
    }
    if b < twice {
        return whole + 1;
    }
    whole + whole % 2
}

// The quota by its formula. All products are below 2^32, so the division is one of 32 bits.
fn share(s: rules::Setting, c: u32) -> u64
    requires { (s.n < s.l) × (s.l ≤ 2 ^ 24) × (s.q ≤ 255) }
    ensures { (result ≡ quota_even s c) × (result ≤ 255) }
{
    let scale = (s.l - s.n) as u32;
    // What the index counter leaves of its full scale.
    let left = scale.saturating_sub(c);
    let product = s.q as u32 * left;
    u64::from(nearest(product, scale))
}

// The quota of a thread in a bank whose index counter in test is c. It is Q, with no division, while the counter is 0.
pub fn quota(s: rules::Setting, c: u32) -> u64
    requires { (s.n < s.l) × (s.l ≤ 2 ^ 24) × (s.q ≤ 255) }
    ensures { (result ≡ quota_even s c) × (result ≤ 255) }
{
    if c == 0 {
        return s.q;
    }
    share(s, c)
}
