// Tests of a block's bytes.
ghost use Rattle.std.specs.Prelude.{◌≡◌, ◌+◌, ◌≤◌};
ghost use Rattle.log_format.specs.Bytes.{zeros};

// The n bytes from a place on are zero: no bit of them is set.
pub fn are_zero(block: &[u8; 512], from: usize, n: usize) -> bool
    requires { from + n ≤ 512 }
    ensures { result ≡ zeros block.now from n }
{
    block[from..from + n].iter().fold(0, |bits, b| bits | *b) == 0
}
