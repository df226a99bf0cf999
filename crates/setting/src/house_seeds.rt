// The pass over the seeds: whether they are in range, which refusal 1 asks, and whether they are the house seeds, for which a row's places come from a table
// (`hash::high` and `hash::low`).
ghost use Rattle.std.specs.Prelude.{◌≡◌, fold, bit_or, bit_xor};
ghost use Rattle.std.specs.List.{zip};
ghost use Rattle.setting.specs.Differing.{Differing};

// The house seeds, function by function, that of bit 0 first.
const HOUSE: [u16; 64] = [
    37, 148, 333, 592, 925, 308, 789, 320, 949, 628, 381, 208, 109, 84, 133, 256, 248, 448, 722,
    46, 468, 964, 510, 130, 848, 616, 458, 374, 364, 428, 566, 778, 459, 748, 87, 524, 11, 596,
    231, 964, 747, 604, 535, 540, 619, 772, 999, 276, 670, 24, 476, 1002, 578, 228, 976, 774, 646,
    592, 612, 706, 874, 92, 408, 798,
];

// The bits in which some number differs from the one at its place in the other list, or-ed without a branch, so that the compiler uses vectors.
fn differing_bits(a: &[u16], b: &[u16]) -> u16
    ensures { result ≡ fold (λ bits pair. bit_or bits (bit_xor pair.0 pair.1)) 0 (zip a.now b.now) }
{
    a.iter().zip(b).fold(0, |bits, (x, y)| bits | (*x ^ *y))
}

// The bits in which some of the seeds differ from the house seed at their place; all sixteen where there are not 64 seeds. A house seed has ten
// bits, so a seed that is out of range differs in a higher one.
// It rules out: a pass that leaves one seed out, one that takes other seeds for these, and one that lets a seed of 1,024 pass.
pub fn difference(seeds: &[u16]) -> u16
    ensures { Differing result seeds.now }
{
    if seeds.len() != 64 {
        return 65535;
    }
    differing_bits(seeds, &HOUSE)
}
