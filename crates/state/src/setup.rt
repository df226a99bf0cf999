// What set-up leaves of the state apart from the filters, for an accepted setting.
ghost use Rattle.std.specs.Prelude.{◌≡◌, ◌≤◌, ltb, length};
ghost use Rattle.rules.specs.Cells.{clear_cells};
ghost use Rattle.rules.specs.Setting.{history_length};
ghost use Rattle.rules.specs.State.{threads_used, fresh_head};
ghost use Rattle.state.specs.Ready.{Bounds};

use head::Head;
use rules::Setting;

// What set-up leaves apart from the filters: the used parts of history and thread counters cleared, and the head of zeros.
pub fn fresh(s: Setting, ticks: &mut [u64], rows: &mut [u32], threads: &mut [u32]) -> Head
    requires { Bounds s × (history_length s ≤ length ticks.old) × (history_length s ≤ length rows.old) × (threads_used s ≤ length threads.old) }
    ensures { (result ≡ fresh_head) × (ticks.new ≡ clear_cells (λ i. ltb i (history_length s)) ticks.old) × (rows.new ≡ clear_cells (λ i. ltb i (history_length s)) rows.old) × (threads.new ≡ clear_cells (λ i. ltb i (threads_used s)) threads.old) }
{
    history::clear(ticks, rows, setting::history_length(s));
    let used = (s.banks * s.threads * 3) as usize;
    threads[..used].fill(0);
    Head {
        last: 0,
        next: 0,
        bank: [0; 16],
        rank: [0; 4],
    }
}
