// The plain second engine (02, E10), for the acceptance trial: the answer of `judge` for a file, its verdicts found by trying every commit as the next link. It
// writes no image. That both engines answer the same is proved of the two, and said of the two calls on one file.
#![tactic(auto)]

ghost use Rattle.std.specs.Prelude.{◌≡◌, ◌≤◌, length};
ghost use Rattle.store.specs.Limits.{max_image};
ghost use Rattle.answer.specs.Answer.{image_after};
ghost use Rattle.judging.specs.Answers.{answer_of, told_answer};
ghost use Rattle.rejudging.specs.Plain.{plain_answer, EnginesAgree};

use commits::Engine;
use judging::{Answer, Judged};
use store::Store;

// The answer for the bytes of a file, whatever they are: a refusal with codes 1 to 14, or the verdicts, with the length that the image has which the judge writes.
pub fn plain(file: &[u8]) -> Answer
    ensures answer { answer_of result ≡ plain_answer file.now }
    ensures agree { EnginesAgree file.now }
{
    let s = Store::opening();
    let mut versions = s.versions;
    let mut keys = s.keys;
    let mut commits = s.commits;
    let mut views = [1u64; state::VIEWS];
    let taken = taking::take_file(
        file,
        &mut versions,
        &mut keys,
        &mut commits,
        &mut views,
        Engine::Plain,
    )?;
    Ok(Judged {
        verdicts: taken.verdicts,
        records: taken.header.records,
        commits: taken.commits,
        image_length: imaging::size(&keys, taken.header.keys, taken.commits),
    })
}

// The answers of both engines for one file.
#[derive(Clone, Copy)]
pub struct Both {
    pub fast: Answer,
    pub plain: Answer,
}

// The acceptance trial: both engines on the same file. Where the image buffer has room for the longest image, their answers are the same.
pub fn trial(file: &[u8], buffer: &mut [u8]) -> Both
    ensures fast { answer_of result.fast ≡ told_answer file.now (length buffer.old) }
    ensures plain { answer_of result.plain ≡ plain_answer file.now }
    ensures same { max_image ≤ length buffer.old → answer_of result.fast ≡ answer_of result.plain }
    ensures image { buffer.new ≡ image_after file.now buffer.old }
{
    let fast = judging::judge(file, buffer);
    let slow = plain(file);
    Both { fast, plain: slow }
}
