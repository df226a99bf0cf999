// The frame of a block: its number and record count before the body, zeros after it, and the two sums.
ghost use Rattle.std.specs.Prelude.{◌≡◌, ◌≤◌};
ghost use Rattle.log_format.specs.Encode.{headed, padded, summed, framed};

use log_bytes::store::put;
use log_bytes::sums::add_up;

// The block number, the record count and three zeros.
fn put_head(block: &mut [u8; 512], number: u64, count: u64)
    ensures { block.new ≡ headed block.old number count }
{
    put(block, 0, 4, number);
    put(block, 4, 1, count);
    put(block, 5, 3, 0);
}

// Zeros from a place to the end of the body.
fn pad(block: &mut [u8; 512], from: usize)
    requires { from ≤ 508 }
    ensures { block.new ≡ padded block.old from }
{
    block[from..508].fill(0);
}

// The two sums.
fn put_sums(block: &mut [u8; 512])
    ensures { block.new ≡ summed block.old }
{
    let s = add_up(&*block);
    put(block, 508, 2, u64::from(s.plain % 65521));
    put(block, 510, 2, u64::from(s.weighted % 65521));
}

// A block whose body ends at a place.
pub fn frame(block: &mut [u8; 512], number: u64, count: u64, end: usize)
    requires { end ≤ 508 }
    ensures { block.new ≡ framed block.old number count end }
{
    put_head(block, number, count);
    pad(block, end);
    put_sums(block);
}
