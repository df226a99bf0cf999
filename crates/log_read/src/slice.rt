// One block of a log that lies in a slice of bytes, copied, for callers that go over a whole log.
ghost use Rattle.std.specs.Prelude.{◌≡◌, ◌+◌, ◌*◌, ◌≤◌, length};
ghost use Rattle.log_format.specs.Bytes.{block_at};

// Block b of a log.
pub fn block_at(bytes: &[u8], b: usize) -> [u8; 512]
    requires { 512 * b + 512 ≤ length bytes.now }
    ensures { result ≡ block_at bytes.now b }
{
    let at = 512 * b;
    bytes[at..at + 512].try_into().unwrap()
}
