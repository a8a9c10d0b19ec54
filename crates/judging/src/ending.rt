// The end of the call, where a trace is taken: the image is written and the verdicts are answered, or the image buffer is too short for the image.
ghost use Rattle.std.specs.Prelude.{◌≡◌, List, ℕ, ◌≤◌, length};
ghost use Rattle.store.specs.Limits.{max_keys, max_commits};
ghost use Rattle.trace.specs.Format.{Trace};
ghost use Rattle.answer.specs.Answer.{image_after};
ghost use Rattle.state.specs.Room.{VersionsRoom, KeysRoom, CommitsRoom, ViewsRoom};
ghost use Rattle.taking.specs.Taking.{Takes};
ghost use Rattle.judging.specs.Answers.{answer_of, told_answer};

use crate::{Answer, Judged};
use state::{Code, Refusal};
use trace::form::Header;
use verdicts::told::Verdicts;

// The answer for a taken trace with its header, of so many commits, with its verdicts; code 15: "image buffer shorter than the image".
pub fn finish(
    buffer: &mut [u8],
    versions: &[u64],
    keys: &[u64],
    commits: &[u64],
    views: &[u64],
    header: Header,
    count: usize,
    verdicts: Verdicts,
) -> Answer
    requires { VersionsRoom versions.now × KeysRoom keys.now × CommitsRoom commits.now × ViewsRoom views.now × (header.keys ≤ max_keys) × (count ≤ max_commits) }
    ensures { (bytes : List ℕ) (t : Trace) → Takes bytes t versions.now keys.now commits.now views.now header count verdicts
        → (answer_of result ≡ told_answer bytes (length buffer.old)) × (buffer.new ≡ image_after bytes buffer.old) }
{
    let n = header.keys;
    let whole = imaging::size(keys, n, count);
    if buffer.len() < whole {
        return Err(Refusal::of_record(Code::ImageRoom as usize, 0));
    }
    imaging::write(buffer, versions, keys, commits, views, n, count, whole);
    Ok(Judged {
        verdicts,
        records: header.records,
        commits: count,
        image_length: whole,
    })
}
