// The four places of a row by the house seeds: the exclusive or of the words that a table has for the row's two bytes. The table's match is compiled to a
// read of constant data.
ghost use Rattle.std.specs.Prelude.{◌≡◌};
ghost use Rattle.rules.specs.Hash.{places};
ghost use Rattle.rules.specs.Samples.{house};

use crate::high::high;
use crate::low::low;

// The four places by the house seeds: the exclusive or of the words of the high and the low byte, taken apart lane by lane.
pub fn table_places(row: u16) -> [usize; 4]
    ensures { result ≡ places house row }
{
    let bits = u64::from(row);
    let w = high(bits / 256) ^ low(bits % 256);
    [
        (w % 65536) as usize,
        (w / 65536 % 65536) as usize,
        (w / 4294967296 % 65536) as usize,
        (w / 281474976710656 % 65536) as usize,
    ]
}
