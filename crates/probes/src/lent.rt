// What a caller lends of one probe, and the records in it.
ghost use Rattle.std.specs.Prelude.{◌≡◌, length};
ghost use Rattle.probe_rules.specs.Probes.{Probe, lent, too_short};
ghost use Rattle.probes.specs.Records.{held_records};

use probe_rules::ProbeRefusal;
use std::marker::Model;

// The buffers of a probe's ticks and rows, and how many records they hold.
#[derive(Drop)]
pub struct Lent<'a> {
    pub ticks: &'a [u64],
    pub rows: &'a [u32],
    pub count: u64,
}

impl<'a> Model for Lent<'a> {
    ghost Value = { Probe };

    ghost view = { λ l. lent l.ticks.now l.rows.now l.count };
}

// The records of a probe in recorded order: a tick and a row for each.
#[derive(Drop)]
pub struct Recording<'a> {
    pub ticks: &'a [u64],
    pub rows: &'a [u32],
}

impl<'a> Model for Recording<'a> {
    ghost Value = { Probe };

    ghost view = { λ r. lent r.ticks.now r.rows.now (length r.ticks.now) };

    ghost invariant = { λ r. length r.rows.now ≡ length r.ticks.now };
}

impl<'a> Lent<'a> {
    // There are more records than one of the buffers has cells.
    fn too_short(&self) -> bool
        ensures { result ≡ too_short self.now }
    {
        (self.ticks.len() as u64) < self.count || (self.rows.len() as u64) < self.count
    }

    // The records.
    pub fn records(&self) -> Result<Recording<'a>, ProbeRefusal>
        ensures { result ≡ held_records self.now }
    {
        if self.too_short() {
            return Err(ProbeRefusal::ShortBuffer);
        }
        let count = self.count as usize;
        Ok(Recording {
            ticks: &self.ticks[..count],
            rows: &self.rows[..count],
        })
    }
}
