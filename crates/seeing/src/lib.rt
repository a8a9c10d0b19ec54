// The call that reports visibility (02, E14), above the judge: it calls `judge`, and reads the image that then stands in the buffer. Nothing else of the
// judge is opened.
#![tactic(auto)]

ghost use Rattle.std.specs.Prelude.{◌≡◌, length};
ghost use Rattle.answer.specs.Answer.{image_after};
ghost use Rattle.judging.specs.Answers.{answer_of};
ghost use Rattle.visible.specs.Claim.{Visibility};
ghost use Rattle.seeing.specs.Answer.{visibility_answer, table_after};

use judging::Answer;
use state::{Code, Refusal};

// The answer for the bytes of a file, whatever they are, is that of `judge`, or code 21 where the table has fewer rows than there are commits. Where it was
// judged, the image stands at the start of its buffer and the rows at the start of the table; with 21 "the image stands as judged".
pub fn report(file: &[u8], image: &mut [u8], table: &mut [u64]) -> Answer
    ensures answer { answer_of result ≡ visibility_answer file.now (length image.old) (length table.old) }
    ensures image { image.new ≡ image_after file.now image.old }
    ensures rows { table.new ≡ table_after file.now (length image.old) table.old }
    ensures holds { Visibility file.now }
{
    let judged = judging::judge(file, image)?;
    if table.len() < judged.commits {
        return Err(Refusal::of_record(Code::Rows as usize, 0));
    }
    gathering::fill(&image[..judged.image_length], table);
    Ok(judged)
}
