// Little-endian numbers, read from a block.
ghost use Rattle.std.specs.Prelude.{◌≡◌, ◌+◌, ◌≤◌, ◌<◌, get_or};
ghost use Rattle.log_format.specs.Bytes.{little};

// The byte at a place.
pub fn byte(block: &[u8; 512], at: usize) -> u64
    requires { at < 512 }
    ensures { (result ≡ get_or block.now at 0) × (result < 256) }
{
    u64::from(block[at])
}

// The number of 16 bits at a place.
pub fn word16(block: &[u8; 512], at: usize) -> u64
    requires { at + 2 ≤ 512 }
    ensures { (result ≡ little block.now at 2) × (result < 65536) }
{
    u64::from(u16::from_le_bytes(block[at..at + 2].try_into().unwrap()))
}

// The number of 32 bits at a place.
pub fn word32(block: &[u8; 512], at: usize) -> u64
    requires { at + 4 ≤ 512 }
    ensures { (result ≡ little block.now at 4) × (result < 4294967296) }
{
    u64::from(u32::from_le_bytes(block[at..at + 4].try_into().unwrap()))
}

// The number of 64 bits at a place.
pub fn word64(block: &[u8; 512], at: usize) -> u64
    requires { at + 8 ≤ 512 }
    ensures { result ≡ little block.now at 8 }
{
    u64::from_le_bytes(block[at..at + 8].try_into().unwrap())
}
