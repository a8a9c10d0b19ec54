// The call that writes the replay of a trace as a file (02, E1): it is lent the trace file in one slice and a file buffer in another, and gives one
// answer. A file is taken as `judge` takes it; what is written costs two more passes over its records.
#![tactic(auto)]

mod ending; // ending.rt: the answer for a trace that is taken
mod records; // records.rt: the records of the replay, and how long they are
mod view; // view.rt: the masks of a full view, as commits go by

ghost use Rattle.std.specs.Prelude.{◌≡◌, length};
ghost use Rattle.answer.specs.Written.{replay_answer, replay_after, ReplayFits, ReadsBack};
ghost use Rattle.replaying.specs.Answers.{replay_of};

use state::Refusal;

// The answer for the bytes of a file, whatever they are: a refusal with its code, or the length of the file that was written, which stands at the start of the
// buffer.
pub fn write(file: &[u8], buffer: &mut [u8]) -> Result<usize, Refusal>
    ensures answer { replay_of result ≡ replay_answer file.now (length buffer.old) }
    ensures written { buffer.new ≡ replay_after file.now buffer.old }
    ensures back { ReadsBack file.now (length buffer.old) buffer.new }
    ensures longest { ReplayFits file.now }
{
    let taken = taking::take(file)?;
    ending::finish(file, buffer, taken.header, taken.commits, taken.verdicts)
}
