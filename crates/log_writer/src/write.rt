// A record of a log, stored in its block. The format is defined in the crate `log_format`; `frame` has the frame of a block, and `encode` the calls for C,
// which test what the format can hold.
ghost use Rattle.std.specs.Prelude.{◌≡◌, ◌<◌};
ghost use Rattle.log_format.specs.Encode.{put_record};

use log_bytes::store::put;
use log_format::Entry;

// The record at place k, its last two bytes zeros.
pub fn put_record(block: &mut [u8; 512], k: usize, e: Entry)
    requires { k < 20 }
    ensures { block.new ≡ put_record block.old k e }
{
    let at = 8 + 24 * k;
    put(block, at, 8, e.tick);
    put(block, at + 8, 8, e.wait);
    put(block, at + 16, 2, u64::from(e.row));
    put(block, at + 18, 1, e.bank);
    put(block, at + 19, 1, e.thread);
    put(block, at + 20, 1, e.kind);
    put(block, at + 21, 1, e.answer);
    put(block, at + 22, 2, 0);
}
