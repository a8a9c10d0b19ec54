// The call that judges a trace file: it is lent the file in one slice and an image buffer in another, and gives one answer.
#![tactic(auto)]

mod ending; // ending.rt: the answer for a trace that is taken

ghost use Rattle.std.specs.Prelude.{◌≡◌, length};
ghost use Rattle.answer.specs.Answer.{image_after, ImageFits};
ghost use Rattle.answer.specs.Demand3.{Demand3};
ghost use Rattle.answer.specs.Recorded.{ImageSays};
ghost use Rattle.judging.specs.Answers.{answer_of, told_answer};

use commits::Engine;
use state::Refusal;
use store::Store;
use verdicts::told::Verdicts;

// What was judged of a file that is taken.
#[derive(Clone, Copy)]
pub struct Judged {
    pub verdicts: Verdicts,
    pub records: usize,
    pub commits: usize,
    pub image_length: usize,
}

// The answer for a file: a refusal with its code, or what was judged.
pub type Answer = Result<Judged, Refusal>;

// The answer for the bytes of a file, whatever they are; where it was judged, the image stands at the start of the buffer.
pub fn judge(file: &[u8], buffer: &mut [u8]) -> Answer
    ensures answer { answer_of result ≡ told_answer file.now (length buffer.old) }
    ensures image { buffer.new ≡ image_after file.now buffer.old }
    ensures longest { ImageFits file.now }
    ensures demand3 { Demand3 file.now }
    ensures says { ImageSays file.now }
{
    let s = Store::opening();
    let mut versions = s.versions;
    let mut keys = s.keys;
    let mut commits = s.commits;
    let mut views = [1u64; state::VIEWS];
    let taken = taking::take_file(
        file,
        &mut versions,
        &mut keys,
        &mut commits,
        &mut views,
        Engine::Fast,
    )?;
    ending::finish(
        buffer,
        &versions,
        &keys,
        &commits,
        &views,
        taken.header,
        taken.commits,
        taken.verdicts,
    )
}
