// What an epoch's turn clears of the thread counters.
ghost use Rattle.std.specs.Prelude.{◌≡◌, ◌*◌, ◌%◌, ◌^◌, ◌≤◌, ◌<◌, length};
ghost use Rattle.rules.specs.Cells.{clear_cells};
ghost use Rattle.rules.specs.Clock.{turned_threads};
ghost use Rattle.threads.specs.Kinds.{kind_below};

// Clears the cell of one kind in each of the first groups of three.
fn clear_kind(threads: &mut [u32], kind: usize, groups: usize)
    requires { (kind < 3) × (3 * groups ≤ length threads.old) }
    ensures { threads.new ≡ clear_cells (kind_below kind groups) threads.old }
{
    // Kept: an index. After `chunks_exact_mut` a proof knows how many cells there are and not what they hold, of which the contract speaks.
    for i in 0..groups {
        threads[3 * i + kind] = 0;
    }
}

// The clock goes from one epoch to another: index counters are cleared as the filters are, and in flight stays.
pub fn turn(threads: &mut [u32], used: usize, from: u64, to: u64)
    requires { (used ≤ length threads.old) × (used % 3 ≡ 0) × (from < 2 ^ 63) }
    ensures { threads.new ≡ turned_threads used from to threads.old }
{
    if to <= from {
        return;
    }
    let groups = used / 3;
    let next = from + 1;
    if next < to {
        clear_kind(threads, 0, groups);
        clear_kind(threads, 1, groups);
        return;
    }
    let kind = from % 2;
    clear_kind(threads, kind as usize, groups);
}
