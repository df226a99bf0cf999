// The call for C about two probes on one channel: libprobes.a. It is the function of the same name of the crate `probes`, under the same contract.
#![tactic(auto)]

ghost use Rattle.std.specs.Prelude.{◌≡◌};
ghost use Rattle.probe_rules.specs.Probes.{lent, verdict_of, code_of, out_of};

// Whether the lists of two probes fit, and the least offset d of their clocks: 0, and in out 1 and d, or 0 and 0 where they do not fit; or the
// number of the refusal, and out as it was.
#[unsafe(no_mangle)]
pub extern "C" fn throttle_fit_probes(
    xticks: &[u64],
    xrows: &[u32],
    xcount: u64,
    yticks: &[u64],
    yrows: &[u32],
    ycount: u64,
    jitter: u64,
    out: &mut [u64; 2],
) -> u32
    ensures { let v = verdict_of (lent xticks.now xrows.now xcount) (lent yticks.now yrows.now ycount) jitter in (result ≡ code_of v) × (out.new ≡ out_of v out.old) }
{
    probes::throttle_fit_probes(xticks, xrows, xcount, yticks, yrows, ycount, jitter, out)
}
