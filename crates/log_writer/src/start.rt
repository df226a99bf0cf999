// What block 0 of a log holds, stored: the setting, the seeds and the profile mark. The format is defined in the crate `log_format`.
ghost use Rattle.std.specs.Prelude.{◌≡◌, length};
ghost use Rattle.std.proofs.lemmas.List.Edits.{sets};
ghost use Rattle.log_format.specs.Bytes.{bytes_of};
ghost use Rattle.log_format.specs.Encode.{numbers_bytes};

use log_bytes::store::put;

// Kept: the two loops below differ in the numbers' type, and one generic function would carry the place, the width, the count and what `into` gives in its
// contract, which is no plainer.

// The nine numbers of a setting before its mark, four bytes each.
pub fn put_setting(block: &mut [u8; 512], setting: &[u64; 10])
    ensures { block.new ≡ sets block.old 8 (numbers_bytes 4 setting.now 0 9) }
{
    for (i, number) in setting[..9].iter().enumerate() {
        put(block, 8 + 4 * i, 4, *number);
    }
}

// The seeds, two bytes each.
pub fn put_seeds(block: &mut [u8; 512], seeds: &[u16])
    requires { length seeds.now ≡ 64 }
    ensures { block.new ≡ sets block.old 44 (numbers_bytes 2 seeds.now 0 64) }
{
    for (i, seed) in seeds.iter().enumerate() {
        put(block, 44 + 2 * i, 2, u64::from(*seed));
    }
}

// The mark of the profile, in one byte.
pub fn put_mark(block: &mut [u8; 512], mark: u64)
    ensures { block.new ≡ sets block.old 172 (bytes_of 1 mark) }
{
    put(block, 172, 1, mark);
}
