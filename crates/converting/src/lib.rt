// The calls that write a taken trace file in the short or in the long edition (02, E6): each is lent the trace file in one slice and a file buffer in
// another, and gives one answer. A file is taken as `judge` takes it; what is written costs two more passes over its records.
#![tactic(auto)]

mod ending; // ending.rt: the answer for a trace that is taken
mod kinds; // kinds.rt: a record written in either edition, and how long it is
mod records; // records.rt: the records of the file, one after another
mod view; // view.rt: what a record means for its client's view

ghost use Rattle.std.specs.Prelude.{◌≡◌, length};
ghost use Rattle.trace.specs.Edition as Editions;
ghost use Rattle.answer.specs.Converted.{convert_answer, convert_after, WrittenSame};
ghost use Rattle.converting.specs.Answers.{edition_of, conversion_of};

use state::Refusal;

// "each 2 as a 6 and each 3 as a 5, or long the other way round"
#[derive(Clone, Copy)]
pub enum Edition {
    Long,
    Short,
}

// The answer for the bytes of a file, whatever they are: a refusal with its code, or the length of the file that was written, which stands at the start of the
// buffer.
pub fn convert(file: &[u8], buffer: &mut [u8], edition: Edition) -> Result<usize, Refusal>
    ensures answer { conversion_of result ≡ convert_answer (edition_of edition) file.now (length buffer.old) }
    ensures written { buffer.new ≡ convert_after (edition_of edition) file.now buffer.old }
    ensures same { WrittenSame (edition_of edition) file.now (length buffer.old) buffer.new }
{
    let taken = taking::take(file)?;
    ending::finish(file, buffer, taken.header, edition)
}

// "write any taken file short"
pub fn short(file: &[u8], buffer: &mut [u8]) -> Result<usize, Refusal>
    ensures answer { conversion_of result ≡ convert_answer Editions.short file.now (length buffer.old) }
    ensures written { buffer.new ≡ convert_after Editions.short file.now buffer.old }
    ensures same { WrittenSame Editions.short file.now (length buffer.old) buffer.new }
{
    convert(file, buffer, Edition::Short)
}

// "or long the other way round"
pub fn long(file: &[u8], buffer: &mut [u8]) -> Result<usize, Refusal>
    ensures answer { conversion_of result ≡ convert_answer Editions.long file.now (length buffer.old) }
    ensures written { buffer.new ≡ convert_after Editions.long file.now buffer.old }
    ensures same { WrittenSame Editions.long file.now (length buffer.old) buffer.new }
{
    convert(file, buffer, Edition::Long)
}
