// What a caller has lent, as the tests see it.
ghost use Rattle.setting.specs.Differing.{Differing};

// Of counters and rows it has the lengths. The thread counters stand beside it: the test of refusal 10 reads them, the others take their length.
#[derive(Clone, Copy)]
pub struct Lent<'a> {
    pub setting: &'a [u64; 10],
    pub seeds: &'a [u16],
    // The bits in which the seeds differ from the house seeds.
    pub differing: u16,
    pub head: &'a [u64; 22],
    pub counters: usize,
    pub ticks: &'a [u64],
    pub rows: usize,
    pub ghost differs: { Differing differing seeds.now },
}
