// The encoder, for C and for Rattle alike: block 0 from a setting and seeds, records put into a block, the block sealed.
// A call that is refused gives a number and leaves the block as it was.
// Kept: the answer is a number and not a Result, since C has these calls by the same names and contracts (`log_c`): the C interface.
ghost use Rattle.std.specs.Prelude.{◌≡◌};
ghost use Rattle.log_format.specs.Encode.{written, record_written, seal_written, start_written};

use crate::fits::{record_fits, setting_fits};
use crate::frame::frame;
use crate::start::{put_mark, put_seeds, put_setting};
use crate::write::put_record;
use log_format::Entry;
use setting::words::is_known;

// ---- records

// Puts a record into a block, at place 0 to 19. 13 for what the format cannot hold.
// It rules out: a writer that loses the wait tick, and one that cuts a bank to a byte.
pub fn throttle_log_record(
    block: &mut [u8; 512],
    place: u64,
    tick: u64,
    wait: u64,
    row: u16,
    bank: u64,
    thread: u64,
    kind: u64,
    answer: u64,
) -> u32
    ensures { written result block.new ≡ record_written block.old place (record { tick = tick; wait = wait; row = row; bank = bank; thread = thread; kind = kind; answer = answer }) }
{
    let e = Entry {
        tick,
        wait,
        row,
        bank,
        thread,
        kind,
        answer,
    };
    if !record_fits(place, e) {
        return 13;
    }
    put_record(block, place as usize, e);
    0
}

// Seals a block of records: its number, its record count, zeros after the records, the sums. 13 for a number of 0 or of more
// than 32 bits, or a count outside 1 to 20.
// It rules out: a writer that seals 21 records, writes the count for the number, or the first sum twice.
pub fn throttle_log_seal(block: &mut [u8; 512], number: u64, count: u64) -> u32
    ensures { written result block.new ≡ seal_written block.old number count }
{
    let fits = (1..=4294967295).contains(&number) & (1..=20).contains(&count);
    if !fits {
        return 13;
    }
    frame(block, number, count, 8 + 24 * (count as usize));
    0
}

// ---- block 0

// Writes block 0. 1 for a field that does not fit 32 bits, a mark that no profile has, or other than 64 seeds; whether the setting is accepted is not asked.
// It rules out: a writer that numbers the block 1, one that writes the seeds over the setting, and one that leaves the mark out.
pub fn throttle_log_start(setting: &[u64; 10], seeds: &[u16], block: &mut [u8; 512]) -> u32
    ensures { written result block.new ≡ start_written block.old setting.now seeds.now }
{
    let mark = setting[9];
    let fits = setting_fits(setting) & is_known(mark) & (seeds.len() == 64);
    if !fits {
        return 1;
    }
    put_setting(block, setting);
    put_seeds(block, seeds);
    put_mark(block, mark);
    frame(block, 0, 0, 173);
    0
}
