// Words of four lanes, 16 bits each: four seeds of an H3 function, masked by four bits of a row all at once, and the exclusive or of a word's lanes.
// No branch depends on the bits.
ghost use Rattle.std.specs.Prelude.{◌≡◌, ◌+◌, ◌≤◌, ◌%◌, length};
ghost use Rattle.hash_rules.specs.Lanes.{joined};
ghost use Rattle.hash.specs.Lanes.{four_seeds, spread, chosen, folded};

// Four numbers in one word, the first in the lowest lane.
// It rules out: two lanes exchanged, and a lane that is taken twice.
pub fn join(a: u16, b: u16, c: u16, d: u16) -> u64
    ensures { result ≡ joined a b c d }
{
    u64::from(a) + 65536 * u64::from(b) + 4294967296 * u64::from(c) + 281474976710656 * u64::from(d)
}

// The four seeds from place i on.
fn four(seeds: &[u16], i: usize) -> u64
    requires { i + 4 ≤ length seeds.now }
    ensures { result ≡ four_seeds seeds.now i }
{
    join(seeds[i], seeds[i + 1], seeds[i + 2], seeds[i + 3])
}

// The four lowest bits, each at the lowest place of its lane. The factor is 1 + 2^15 + 2^30 + 2^45: it puts bit k at place 16k among
// others, and the second number keeps only these four places.
fn spread(bits: u64) -> u64
    ensures { result ≡ spread 1 bits }
{
    (bits % 16 * 35185445863425) & 281479271743489
}

// For each of the four lowest bits a lane: all ones where the bit is set, else 0.
fn mask(bits: u64) -> u64
    ensures { result ≡ spread 65535 bits }
{
    spread(bits) * 65535
}

// Of the four seeds from place i on those whose bit, among the four lowest, is set; 0 in the lanes of the others.
pub fn chosen(seeds: &[u16], i: usize, bits: u64) -> u64
    requires { i + 4 ≤ length seeds.now }
    ensures { result ≡ chosen seeds.now i bits }
{
    four(seeds, i) & mask(bits)
}

// The exclusive or of the four lanes, its ten lowest bits.
pub fn fold(x: u64) -> usize
    ensures { result ≡ folded x % 1024 }
{
    let y = x ^ (x / 4294967296);
    let z = y ^ (y / 65536);
    (z % 1024) as usize
}
