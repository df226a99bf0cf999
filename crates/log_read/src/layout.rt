// Whether a block has the layout of the format: refusal 13. The module `records` looks at the records.
ghost use Rattle.std.specs.Prelude.{◌≡◌, true, ◌<◌, ◌^◌};
ghost use Rattle.log_format.specs.Blocks.{start_laid_out, records_laid_out, in_turn, laid_out};

use crate::records::are_records;
use log_bytes::read::{byte, word32};
use log_bytes::tests::are_zero;
use setting::words::is_known;

// The body of a later block.
fn is_later(block: &[u8; 512]) -> bool
    ensures { result ≡ records_laid_out block.now }
{
    let count = byte(block, 4) as usize;
    if !(1..=20).contains(&count) {
        return false;
    }
    are_records(block, count) & are_zero(block, 8 + 24 * count, 500 - 24 * count)
}

// The body of block 0, with the mark of a profile behind the seeds.
fn is_start(block: &[u8; 512]) -> bool
    ensures { result ≡ start_laid_out block.now }
{
    (byte(block, 4) == 0) & is_known(byte(block, 172)) & are_zero(block, 173, 335)
}

// A block after block 1 follows one of 20 records.
fn is_in_turn(index: u64, before: u64) -> bool
    ensures { result ≡ in_turn index before }
{
    (index <= 1) | (20 <= before)
}

// The whole layout. A block that passes has an index below 2^32: its number is one of 32 bits.
pub fn is_laid_out(block: &[u8; 512], index: u64, before: u64) -> bool
    ensures { (result ≡ laid_out block.now index before) × (result ≡ true → index < 2 ^ 32) }
{
    let framed = (word32(block, 0) == index) & are_zero(block, 5, 3);
    if index == 0 {
        return framed & is_start(block);
    }
    framed & is_in_turn(index, before) & is_later(block)
}
