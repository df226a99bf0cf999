// What a request does with the caller's memory before and after its filters, for the limits of any width: it tests what was lent, and stores the answer.
// No function here knows the width of a filter counter.
ghost use Rattle.std.specs.Prelude.{◌≡◌, ◌≢◌, [], ◌∷◌, ◌≤◌, ◌<◌, get_or, IfOk};
ghost use Rattle.head.specs.Head.{moved_head};
ghost use Rattle.refused.specs.Numbers.{code_of};
ghost use Rattle.rules.specs.Answers.{refusal_number, answer_number, answer_wait, answer_left};
ghost use Rattle.rules.specs.Setting.{setting_of};
ghost use Rattle.rules.specs.State.{head_of, head_words};
ghost use Rattle.rules.specs.Policy.{limits02};
ghost use Rattle.refusal.specs.Tests.{call_test};
ghost use Rattle.hash_rules.specs.Words.{TableFor};

use crate::words::store_answered;
use decision::numbers::out_words;
use head::Head;
use refusal::{Lent, Named, call_refusal};
use refused::Refusal;
use rules::{Answer, Limits};
use setting::house_seeds::difference;

// Refusals 1 to 9 and 16, and whether the seeds are the house seeds where it is not refused. Of counters, rows and thread counters it takes the lengths.
pub fn tested(
    m: Limits,
    setting: &[u64; 10],
    seeds: &[u16],
    head: &[u64; 22],
    counters: usize,
    ticks: &[u64],
    rows: usize,
    threads: usize,
    at: Named,
) -> Result<bool, Refusal>
    requires { m.threshold ≤ limits02.threshold }
    ensures refusal { code_of result ≡ refusal_number (call_test m (setting_of setting.now) seeds.now (head_of head.now) counters ticks.now rows threads at.tick at.bank at.thread) }
    ensures table { IfOk result (λ table. TableFor table seeds.now) }
{
    let differing = difference(seeds);
    let lent = Lent {
        setting,
        seeds,
        differing,
        head,
        counters,
        ticks,
        rows,
    };
    call_refusal(m, lent, threads, at)?;
    Ok(differing == 0)
}

// The stored tick of a bank, in the head's words.
pub fn bank_word(head: &[u64; 22], bank: u64) -> u64
    requires { bank < 16 }
    ensures { result ≡ get_or (head_of head.now).bank bank 0 }
{
    head[2 + bank as usize]
}

// Stores the head after an answer, and the words of the answer.
pub fn told(a: Answer, h: Head, words: &mut [u64; 22], out: &mut [u64; 3])
    requires { answer_number a ≢ 0 → h ≡ moved_head (head_of words.old) h.last }
    ensures { (words.new ≡ head_words h) × (out.new ≡ answer_number a ∷ answer_wait a ∷ answer_left a ∷ []) }
{
    store_answered(a, h, words);
    *out = out_words(a);
}
