// Words and decimal numbers, put one behind the other in a buffer that the caller lends, and lines of them.
// Kept: the buffer and the place reached are two parameters. In a struct they are no plainer, since each contract then has to say what the lent buffer becomes.
ghost use Rattle.std.specs.Prelude.{◌+◌, ◌≤◌, ◌≡◌, ◌++◌, length, take};
ghost use Rattle.report.specs.Lines.{decimal_of, line_of, line_of_two};

// A word behind the first `at` bytes. The answer is where it ends.
pub fn put(out: &mut [u8], at: usize, word: &[u8]) -> usize
    requires { at + length word.now ≤ length out.old }
    ensures { (result ≡ at + length word.now) × (take result out.new ≡ take at out.old ++ word.now) }
{
    let end = at + word.len();
    out[at..end].copy_from_slice(word);
    end
}

// A number in decimal behind the first `at` bytes.
fn put_decimal(out: &mut [u8], at: usize, n: u64) -> usize
    requires { at + 20 ≤ length out.old }
    ensures { (result ≤ at + 20) × (take result out.new ≡ take at out.old ++ decimal_of n) }
{
    let mut digits = [0u8; 20];
    let k = io::decimal(n, &mut digits);
    put(out, at, &digits[..k])
}

// A line of a word and a number.
pub fn put_line(out: &mut [u8], at: usize, word: &[u8], n: u64) -> usize
    requires { at + length word.now + 21 ≤ length out.old }
    ensures { (result ≤ at + length word.now + 21) × (take result out.new ≡ take at out.old ++ line_of word.now n) }
{
    let a = put(out, at, word);
    let b = put_decimal(out, a, n);
    put(out, b, b"\n")
}

// A line of a word and two numbers.
pub fn put_line_of_two(out: &mut [u8], at: usize, word: &[u8], m: u64, n: u64) -> usize
    requires { at + length word.now + 42 ≤ length out.old }
    ensures { (result ≤ at + length word.now + 42) × (take result out.new ≡ take at out.old ++ line_of_two word.now m n) }
{
    let a = put(out, at, word);
    let b = put_decimal(out, a, m);
    let c = put(out, b, b" ");
    let d = put_decimal(out, c, n);
    put(out, d, b"\n")
}
