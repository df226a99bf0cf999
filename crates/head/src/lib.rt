// The state head by value, with the methods that move its clock and record an activation. They stand below the rules, which have no code.
#![tactic(auto)]

ghost use Rattle.std.specs.Prelude.{◌≡◌, ◌+◌, ◌<◌, ◌^◌};
ghost use Rattle.head.specs.Head.{next_place, moved_head, activated_head};

// The state head of document 01. A stored tick is the tick plus one, and 0 means none.
#[derive(Clone, Copy)]
pub struct Head {
    // The last tick, stored as it is.
    pub last: u64,
    // The next history place.
    pub next: u64,
    // The stored tick of each bank's last activation.
    pub bank: [u64; 16],
    // The stored ticks of the rank's last four activations, newest first.
    pub rank: [u64; 4],
}

impl Head {
    // The head with its clock moved to tick t.
    pub fn moved(self, t: u64) -> Head
        ensures { result ≡ moved_head self t }
    {
        let mut h = self;
        h.last = t;
        h
    }

    // The head after an activation in a bank at the last tick, with a history of so many places.
    pub fn activated(self, places: u64, bank: usize) -> Head
        requires { (bank < 16) × (self.last < 2 ^ 62) × (self.next < places) }
        ensures { result ≡ activated_head places self bank }
    {
        let stored = self.last + 1;
        let mut banks = self.bank;
        banks[bank] = stored;
        let old = self.rank;
        let rank = [stored, old[0], old[1], old[2]];
        Head {
            last: self.last,
            next: next_place(places, self.next),
            bank: banks,
            rank,
        }
    }
}

// The history place after p in a ring of so many places.
fn next_place(places: u64, p: u64) -> u64
    requires { p < places }
    ensures { result ≡ next_place places p }
{
    if p + 1 == places { 0 } else { p + 1 }
}
