// Whether the records of a block have the layout of the format, a part of refusal 13.
ghost use Rattle.std.specs.Prelude.{◌≡◌, ◌≤◌, ◌<◌};
ghost use Rattle.rules.specs.Cells.{every};
ghost use Rattle.log_format.specs.Blocks.{record_laid_out};

use log_bytes::read::byte;
use log_bytes::tests::are_zero;

// Record k: its kind, its answer and two zeros.
fn is_record(block: &[u8; 512], k: usize) -> bool
    requires { k < 20 }
    ensures { result ≡ record_laid_out block.now k }
{
    let at = 8 + 24 * k;
    (byte(block, at + 20) <= 1) & (byte(block, at + 21) <= 4) & are_zero(block, at + 22, 2)
}

// The first n records.
pub fn are_records(block: &[u8; 512], n: usize) -> bool
    requires { n ≤ 20 }
    ensures { result ≡ every n (λ k. record_laid_out block.now k) }
{
    (0..n).all(|k| is_record(block, k))
}
