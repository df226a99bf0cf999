// The cells of the history buffer, a ring of places lent as two slices: the place before another, an activation written, the buffer emptied.
// `ticks` holds stored ticks, that is the tick plus one, or 0 for none; `rows` holds row words.
ghost use Rattle.std.specs.Prelude.{◌≡◌, ◌+◌, ◌^◌, ◌<◌, ◌≤◌, length, nat_lt, slice_set};
ghost use Rattle.rules.specs.Cells.{clear_cells};
ghost use Rattle.rules.specs.History.{back};

// The place before p in the ring; before the next place lies the newest one.
pub fn place_before(h: usize, p: usize) -> usize
    requires { p < h }
    ensures { (result ≡ back h p 0) × (result < h) }
{
    if p == 0 { h - 1 } else { p - 1 }
}

// Writes an activation of the row at tick t.
pub fn record(ticks: &mut [u64], rows: &mut [u32], place: usize, t: u64, word: u32)
    requires { (place < length ticks.old) × (place < length rows.old) × (t < 2 ^ 62) }
    ensures { (ticks.new ≡ slice_set ticks.old place (t + 1)) × (rows.new ≡ slice_set rows.old place word) }
{
    ticks[place] = t + 1;
    rows[place] = word;
}

// Empties the h places.
pub fn clear(ticks: &mut [u64], rows: &mut [u32], h: usize)
    requires { (h ≤ length ticks.old) × (h ≤ length rows.old) }
    ensures { (ticks.new ≡ clear_cells (λ i. nat_lt i h) ticks.old) × (rows.new ≡ clear_cells (λ i. nat_lt i h) rows.old) }
{
    ticks[..h].fill(0);
    rows[..h].fill(0);
}
