// What a block holds: the setting and the seeds of block 0, the records of a later one.
ghost use Rattle.std.specs.Prelude.{◌≡◌, ◌<◌};
ghost use Rattle.log_format.specs.Contents.{count_in, setting_in, seeds_in, entry_in};

use log_bytes::read::{byte, word16, word32, word64};
use log_format::Entry;
use rules::Setting;

// The record count.
pub fn count(block: &[u8; 512]) -> u64
    ensures { (result ≡ count_in block.now) × (result < 256) }
{
    byte(block, 4)
}

// The setting of block 0.
pub fn setting(block: &[u8; 512]) -> Setting
    ensures { result ≡ setting_in block.now }
{
    Setting {
        w: word32(block, 8),
        trc: word32(block, 12),
        tfaw: word32(block, 16),
        n: word32(block, 20),
        td: word32(block, 24),
        l: word32(block, 28),
        q: word32(block, 32),
        banks: word32(block, 36),
        threads: word32(block, 40),
        profile: byte(block, 172),
    }
}

// The 64 seeds of block 0.
pub fn seeds(block: &[u8; 512]) -> [u16; 64]
    ensures { result ≡ seeds_in block.now }
{
    let mut out = [0u16; 64];
    for (i, seed) in out.iter_mut().enumerate() {
        *seed = word16(block, 44 + 2 * i) as u16;
    }
    out
}

// Kept: kind and answer of an `Entry` stay numbers: the encoder's call takes any (C interface), and `record_laid_out` says which a block may have.
// Record k, counted from 0.
pub fn entry_at(block: &[u8; 512], k: usize) -> Entry
    requires { k < 20 }
    ensures { result ≡ entry_in block.now k }
{
    let at = 8 + 24 * k;
    Entry {
        tick: word64(block, at),
        wait: word64(block, at + 8),
        row: word16(block, at + 16) as u16,
        bank: byte(block, at + 18),
        thread: byte(block, at + 19),
        kind: byte(block, at + 20),
        answer: byte(block, at + 21),
    }
}
