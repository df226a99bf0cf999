// A straight run of stored ticks, from the oldest up: whether none is followed by a smaller one. The history ring is two such runs.
ghost use Rattle.std.specs.Prelude.{◌≡◌, ◌+◌, ◌^◌, ◌<◌, ◌≤◌, T, length, slice_index};
ghost use Rattle.history.specs.Runs.{never_falls};

// The differences of the m cells from place i on to the next cell, or-ed: no branch, so that the compiler uses vectors. At most 64
// differences below 2^58 add up to less than 2^64, so that at most one of them has wrapped, and then the last cell is below the first.
fn differences(ticks: &[u64], i: usize, m: usize) -> u64
    requires { (i + m < length ticks.now) × (m ≤ 64) × (slice_index ticks.now i ≤ slice_index ticks.now (i + m)) }
    ensures { result < 2 ^ 58 → T (never_falls ticks.now i m) }
{
    let mut all: u64 = 0;
    // Kept: an index over the cells. `windows(2)` and `zip` take 1.27 and 1.29 times the time of the whole test for 888 cells.
    for k in 0..m {
        all |= ticks[i + k + 1].wrapping_sub(ticks[i + k]);
    }
    all
}

// Whether none of the m cells from place i on, at most 64, is followed by a smaller one: by their differences where each is below 2^58, else cell by cell.
fn block_never_falls(ticks: &[u64], i: usize, m: usize) -> bool
    requires { (i + m < length ticks.now) × (m ≤ 64) }
    ensures { result ≡ never_falls ticks.now i m }
{
    if ticks[i + m] < ticks[i] {
        return false;
    }
    if differences(ticks, i, m) < 288230376151711744 {
        return true;
    }
    ticks[i..i + m + 1].is_sorted_by(|older, newer| older <= newer)
}

// The same for a run of any length, by blocks. With the constant 64 the compiler can unroll the loop of a whole block.
pub fn never_falls(ticks: &[u64], i: usize, n: usize) -> bool
    requires { i + n < length ticks.now }
    ensures { result ≡ never_falls ticks.now i n }
{
    let whole = n / 64;
    for b in 0..whole {
        if !block_never_falls(ticks, i + 64 * b, 64) {
            return false;
        }
    }
    block_never_falls(ticks, i + 64 * whole, n - 64 * whole)
}
