// The call for C about two probes on one channel (document 02, i), which the crate `probes_c` exports: whether two lists of recorded activations fit, and the
// least offset of their clocks. The pass over the records stands in `pairs`. The definitions that the contracts cite are in the crate `probe_rules`, with the
// statements of what they mean.
#![tactic(auto)]

mod lent;
mod pairs;

ghost use Rattle.std.specs.Prelude.{◌≡◌, cond, ◌^◌, ◌≤◌};
ghost use Rattle.probe_rules.specs.Probes.{lent, offset, decided, verdict_of, code_of, out_of};
ghost use Rattle.probe_rules.specs.Closed.{closed};
ghost use Rattle.std.specs.Int.{w64};
ghost use Rattle.std.proofs.Common.{of_z};

use crate::lent::Lent;
use crate::pairs::{Spread, look};
use probe_rules::{ProbeRefusal, Verdict};

// The number of the least offset from the greatest and the least difference plus 2^62, for lists that are alike; others do not fit.
fn decide(jitter: u64, spread: Spread) -> Option<u64>
    requires { (jitter ≤ 1000) × (spread.greatest ≤ 2 ^ 63) × (spread.least ≤ 2 ^ 63) }
    ensures { result ≡ decided (cond spread.alike (closed jitter spread.greatest spread.least) 2001) }
{
    if !spread.alike {
        return None;
    }
    let number = (spread.greatest + 1000).saturating_sub(4611686018427387904 + jitter);
    if number > 2000 {
        return None;
    }
    if number + 4611686018427387904 > spread.least + jitter + 1000 {
        return None;
    }
    Some(number)
}

// The verdict about two lists.
fn verdict(x: &Lent, y: &Lent, jitter: u64) -> Verdict
    ensures { result ≡ verdict_of x.now y.now jitter }
{
    let first = x.records()?;
    let second = y.records()?;
    if jitter > 1000 {
        return Err(ProbeRefusal::BadInput);
    }
    let spread = look(&first, &second).ok_or(ProbeRefusal::BadInput)?;
    Ok(decide(jitter, spread))
}

// The offset with this number, which is 1,000 more, as a two's complement number.
fn twos_complement(number: u64) -> u64
    requires { number ≤ 2000 }
    ensures { result ≡ of_z w64 (offset number) }
{
    (number as i64 - 1000).cast_unsigned()
}

// Whether the lists of two probes fit, and the least offset d of their clocks: 0, and in out 1 and d, or 0 and 0 where they do not fit; or the
// number of the refusal, and out as it was.
// It rules out: another offset than the least, a difference of exactly the jitter that does not fit, lists of different length, bank or row that
// fit, a late tick without a partner that is not refused, another offset than −1,000 for two empty lists, a refusal that writes, an answer that
// depends on cells behind the records.
// Kept: the eight parameters and a number for a refusal are the C interface (include/throttle_probes.h).
pub fn throttle_fit_probes(
    xticks: &[u64],
    xrows: &[u32],
    xcount: u64,
    yticks: &[u64],
    yrows: &[u32],
    ycount: u64,
    jitter: u64,
    out: &mut [u64; 2],
) -> u32
    ensures { let v = verdict_of (lent xticks.now xrows.now xcount) (lent yticks.now yrows.now ycount) jitter in (result ≡ code_of v) × (out.new ≡ out_of v out.old) }
{
    let x = Lent {
        ticks: xticks,
        rows: xrows,
        count: xcount,
    };
    let y = Lent {
        ticks: yticks,
        rows: yrows,
        count: ycount,
    };
    match verdict(&x, &y, jitter) {
        Ok(Some(number)) => {
            *out = [1, twos_complement(number)];
            0
        }
        Ok(None) => {
            *out = [0, 0];
            0
        }
        Err(refusal) => refusal.into(),
    }
}
