// The call for C that cuts a log down to records that still differ: libcut_down.a. It is the function of the same name of the crate `cut_down`, under the
// same contract.
#![tactic(auto)]

ghost use Rattle.std.specs.Prelude.{◌≡◌};
ghost use Rattle.rules.specs.Policy.{narrow};
ghost use Rattle.cut_rules.specs.Cut.{cut_of, code_of, out_of};

// 0 and the kept records in out, or the number of the refusal, and out as it was.
#[unsafe(no_mangle)]
pub extern "C" fn throttle_cut_down(log: &[u8], out: &mut [u64; 1]) -> u32
    ensures { (result ≡ code_of (cut_of narrow log.now)) × (out.new ≡ out_of (cut_of narrow log.now) out.old) }
{
    cut_down::throttle_cut_down(log, out)
}
