// The hashing of many rows for bench/run: libhash_rows.a. It is the function of the same name of the crate `hash_rows`, under the same contract.
#![tactic(auto)]

ghost use Rattle.std.specs.Prelude.{◌≡◌};
ghost use Rattle.hash_rows.specs.Rows.{hashed_rows};

// The exclusive or of the hashes of all rows; 0 where the seeds are not 64 numbers up to 1,023.
#[unsafe(no_mangle)]
pub extern "C" fn hash_rows(seeds: &[u16], rows: &[u16], table: u32) -> u64
    ensures { result ≡ hashed_rows seeds.now rows.now }
{
    hash_rows::hash_rows(seeds, rows, table)
}
