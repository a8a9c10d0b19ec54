// Answers as words, for callers in Rust and C: specs/Layout.antt says which word is what. Each function writes the words of one answer at the start of
// a caller's words and answers its code.
#![tactic(auto)]

mod judged; // judged.rt: the words of the ten verdicts

ghost use Rattle.std.specs.Prelude.{◌≡◌, [], ◌∷◌, ◌≤◌, length};
ghost use Rattle.endian.specs.Endian.{put_at};
ghost use Rattle.state.specs.Answers.{refusal_of};
ghost use Rattle.arranging.specs.Answers.{arrangement_of};
ghost use Rattle.judging.specs.Answers.{answer_of};
ghost use Rattle.replaying.specs.Answers.{replay_of};
ghost use Rattle.words.specs.Layout.{refusal_length, refusal_words, replay_words, shown_code, shown_words, answer_length, answer_words, code_of};

use judging::Answer;
use placing::Shown;
use state::Refusal;

// The code of a call that has no room for the words of its answer.
pub const NO_ROOM: u64 = 255;

// The code of a ring (02, E9), which is no refusal: it has words of its own.
pub const RING: u64 = 19;

// The words of a refusal, of whatever call.
pub const REFUSAL: usize = 5;

// The words of an answer of `judge`.
pub const ANSWER: usize = 4 + 4 * verdicts::LEVELS;

// A refusal, of whatever call.
fn put_refusal(out: &mut [u64], r: Refusal) -> u64
    requires { refusal_length ≤ length out.old }
    ensures { (result ≡ r.code) × (out.new ≡ put_at out.old 0 (refusal_words (refusal_of r))) }
{
    let key = r.key;
    let version = r.version;
    let writer = r.writer;
    out[0] = r.code as u64;
    out[1] = r.record as u64;
    out[2] = key.0 as u64;
    out[3] = version.0 as u64;
    out[4] = writer.0 as u64;
    r.code as u64
}

// A code, and a number with it: how many bytes were written, or how many commits are shown.
fn put_count(out: &mut [u64], code: u64, n: usize) -> u64
    requires { refusal_length ≤ length out.old }
    ensures { (result ≡ code) × (out.new ≡ put_at out.old 0 (code ∷ n ∷ [])) }
{
    out[0] = code;
    out[1] = n as u64;
    code
}

// The answer of `replaying::write`, `converting::short` and `converting::long`: how many bytes were written.
pub fn put_replay(out: &mut [u64], a: Result<usize, Refusal>) -> u64
    requires { refusal_length ≤ length out.old }
    ensures { (result ≡ code_of (replay_of a)) × (out.new ≡ put_at out.old 0 (replay_words (replay_of a))) }
{
    match a {
        Ok(size) => put_count(out, 0, size),
        Err(refusal) => put_refusal(out, refusal),
    }
}

// The answer of `arranging::judge_image`.
pub fn put_shown(out: &mut [u64], a: Result<Shown, Refusal>) -> u64
    requires { refusal_length ≤ length out.old }
    ensures { (result ≡ shown_code (arrangement_of a)) × (out.new ≡ put_at out.old 0 (shown_words (arrangement_of a))) }
{
    match a {
        Ok(Shown::Order(n)) => put_count(out, 0, n),
        Ok(Shown::Ring(n)) => put_count(out, RING, n),
        Err(refusal) => put_refusal(out, refusal),
    }
}

// The answer of `judge`.
pub fn put_answer(out: &mut [u64], a: Answer) -> u64
    requires { answer_length ≤ length out.old }
    ensures { (result ≡ code_of (answer_of a)) × (out.new ≡ put_at out.old 0 (answer_words (answer_of a))) }
{
    match a {
        Ok(j) => {
            judged::put_four(
                out,
                0,
                0,
                j.records as u64,
                j.commits as u64,
                j.image_length as u64,
            );
            judged::put_verdicts(out, j.verdicts);
            0
        }
        Err(refusal) => put_refusal(out, refusal),
    }
}
