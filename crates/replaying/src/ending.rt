// The end of the call, where a trace is taken: the file is written, or serialisability does not accept the trace, or the file buffer is too short.
ghost use Rattle.std.specs.Prelude.{◌≡◌, length};
ghost use Rattle.answer.specs.Written.{replay_answer, replay_after};
ghost use Rattle.replaying.specs.Answers.{replay_of, Ending};

use crate::records;
use state::{Code, Refusal};
use trace::form::Header;
use verdicts::told::Verdicts;

// The answer for a taken trace with its header, of so many commits, with its verdicts. Code 16: SER did not accept; then code 17: the file buffer is
// shorter than the file.
pub fn finish(
    file: &[u8],
    buffer: &mut [u8],
    h: Header,
    count: usize,
    verdicts: Verdicts,
) -> Result<usize, Refusal>
    requires { Ending file.now h count verdicts }
    ensures { (replay_of result ≡ replay_answer file.now (length buffer.old)) × (buffer.new ≡ replay_after file.now buffer.old) }
{
    if let Err(f) = verdicts.ser {
        return Err(Refusal::of_version(Code::NotSerial as usize, f.record, f.key, f.version));
    }
    let whole = records::size(file, h);
    if buffer.len() < whole {
        return Err(Refusal::of_record(Code::Room as usize, 0));
    }
    writing::put_head(buffer, whole, h.keys, h.clients, 2 * count);
    records::write(file, buffer, h);
    Ok(whole)
}
