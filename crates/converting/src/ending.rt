// The end of a call, where a trace is taken: the file is written, or it would be too long, or the file buffer is too short.
ghost use Rattle.std.specs.Prelude.{◌≡◌, length};
ghost use Rattle.answer.specs.Converted.{convert_answer, convert_after};
ghost use Rattle.converting.specs.Answers.{edition_of, conversion_of, Ending};

use crate::{Edition, records};
use state::{Code, Refusal};
use store::Store;
use trace::form::Header;

// The answer for a taken trace with its header. Code 22: the file would be longer than a file may be; then code 17: the file buffer is shorter than
// the file.
pub fn finish(file: &[u8], buffer: &mut [u8], h: Header, edition: Edition) -> Result<usize, Refusal>
    requires { Ending file.now h }
    ensures { (conversion_of result ≡ convert_answer (edition_of edition) file.now (length buffer.old))
        × (buffer.new ≡ convert_after (edition_of edition) file.now buffer.old) }
{
    let whole = records::size(edition, file, h);
    if Store::BYTES < whole {
        return Err(Refusal::of_record(Code::TooLong as usize, 0));
    }
    if buffer.len() < whole {
        return Err(Refusal::of_record(Code::Room as usize, 0));
    }
    writing::put_head(buffer, whole, h.keys, h.clients, h.records);
    records::write(edition, file, buffer, h);
    Ok(whole)
}
