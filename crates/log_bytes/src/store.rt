// Little-endian numbers, stored in a block.
ghost use Rattle.std.specs.Prelude.{◌≡◌, ◌+◌, ◌≤◌};
ghost use Rattle.std.proofs.lemmas.List.Edits.{sets};
ghost use Rattle.log_format.specs.Bytes.{bytes_of};

// Stores the n lowest bytes of a number from a place on.
pub fn put(block: &mut [u8; 512], at: usize, n: usize, x: u64)
    requires { at + n ≤ 512 }
    ensures { block.new ≡ sets block.old at (bytes_of n x) }
{
    let mut left = x;
    for b in &mut block[at..at + n] {
        *b = (left % 256) as u8;
        left /= 256;
    }
}
