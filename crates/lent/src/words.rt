// How the head lies in the caller's 22 words.
ghost use Rattle.std.specs.Prelude.{◌≡◌, ◌≢◌};
ghost use Rattle.head.specs.Head.{moved_head};
ghost use Rattle.rules.specs.State.{head_of, head_words};
ghost use Rattle.rules.specs.Answers.{answer_number};

use head::Head;
use rules::Answer;

// The head that the 22 words of the caller hold.
pub fn load_head(words: &[u64; 22]) -> Head
    ensures { result ≡ head_of words.now }
{
    Head {
        last: words[0],
        next: words[1],
        bank: [
            words[2], words[3], words[4], words[5], words[6], words[7], words[8], words[9],
            words[10], words[11], words[12], words[13], words[14], words[15], words[16], words[17],
        ],
        rank: [words[18], words[19], words[20], words[21]],
    }
}

// Stores the head in the caller's 22 words.
pub fn store_head(h: Head, words: &mut [u64; 22])
    ensures { words.new ≡ head_words h }
{
    let b = h.bank;
    let r = h.rank;
    *words = [
        h.last, h.next, b[0], b[1], b[2], b[3], b[4], b[5], b[6], b[7], b[8], b[9], b[10], b[11],
        b[12], b[13], b[14], b[15], r[0], r[1], r[2], r[3],
    ];
}

// Stores a head of which the clock alone has moved: the other words hold it already and are stored as they were read, which the compiler can leave out.
pub fn store_clock(h: Head, words: &mut [u64; 22])
    requires { h ≡ moved_head (head_of words.old) h.last }
    ensures { words.new ≡ head_words h }
{
    *words = [
        h.last, words[1], words[2], words[3], words[4], words[5], words[6], words[7], words[8],
        words[9], words[10], words[11], words[12], words[13], words[14], words[15], words[16],
        words[17], words[18], words[19], words[20], words[21],
    ];
}

// Stores the head after an answer: all of it where the row is opened, else the clock, which alone has moved.
pub fn store_answered(a: Answer, h: Head, words: &mut [u64; 22])
    requires { answer_number a ≢ 0 → h ≡ moved_head (head_of words.old) h.last }
    ensures { words.new ≡ head_words h }
{
    match a {
        Answer::Opened { .. } => store_head(h, words),
        Answer::Wait { .. } | Answer::Quota => store_clock(h, words),
    }
}
