// The tests of what the log format can hold: a record, and the numbers of a setting.
ghost use Rattle.std.specs.Prelude.{◌≡◌, ◌^◌, ltb, get_or};
ghost use Rattle.rules.specs.Cells.{every};
ghost use Rattle.log_format.specs.Encode.{record_fits};

use log_format::Entry;

// Whether the format can hold the record at place k.
pub fn record_fits(k: u64, e: Entry) -> bool
    ensures { result ≡ record_fits k e }
{
    (k < 20) & (e.bank < 256) & (e.thread < 256) & (e.kind <= 1) & (e.answer <= 4)
}

// Each of the nine numbers before the mark fits 32 bits.
pub fn setting_fits(setting: &[u64; 10]) -> bool
    ensures { result ≡ every 9 (λ i. ltb (get_or setting.now i 0) (2 ^ 32)) }
{
    setting[..9].iter().all(|x| *x < 4294967296)
}
