// The log writer for C: liblog.a. Each call is the function of the same name of the crate `log_writer`, under the same contract. A call that is refused gives
// a number and leaves the block as it was.
#![tactic(auto)]

ghost use Rattle.std.specs.Prelude.{◌≡◌};
ghost use Rattle.log_format.specs.Encode.{written, record_written, seal_written, start_written};

// Puts a record into a block, at place 0 to 19. 13 for what the format cannot hold.
#[unsafe(no_mangle)]
pub extern "C" fn throttle_log_record(
    block: &mut [u8; 512],
    place: u64,
    tick: u64,
    wait: u64,
    row: u16,
    bank: u64,
    thread: u64,
    kind: u64,
    answer: u64,
) -> u32
    ensures { written result block.new ≡ record_written block.old place (record { tick = tick; wait = wait; row = row; bank = bank; thread = thread; kind = kind; answer = answer }) }
{
    log_writer::encode::throttle_log_record(
        block, place, tick, wait, row, bank, thread, kind, answer,
    )
}

// Seals a block of records: its number, its record count, zeros after the records, the sums.
#[unsafe(no_mangle)]
pub extern "C" fn throttle_log_seal(block: &mut [u8; 512], number: u64, count: u64) -> u32
    ensures { written result block.new ≡ seal_written block.old number count }
{
    log_writer::encode::throttle_log_seal(block, number, count)
}

// Writes block 0.
#[unsafe(no_mangle)]
pub extern "C" fn throttle_log_start(
    setting: &[u64; 10],
    seeds: &[u16],
    block: &mut [u8; 512],
) -> u32
    ensures { written result block.new ≡ start_written block.old setting.now seeds.now }
{
    log_writer::encode::throttle_log_start(setting, seeds, block)
}
