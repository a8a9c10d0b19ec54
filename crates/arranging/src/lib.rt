// The call that judges a bare image (02, E9): it is lent the image in one slice and a buffer in another, and shows an order of the image's commits or a ring.
#![tactic(auto)]

ghost use Rattle.std.specs.Prelude.{◌≡◌, length};
ghost use Rattle.arranging.specs.Answer.{shown_answer, shown_after};
ghost use Rattle.arranging.specs.Answers.{arrangement_of};
ghost use Rattle.arranging.specs.Claim.{ImageClaim};

use placing::Shown;
use state::{Code, Refusal};
use store::Store;

// The answer for the bytes of an image, whatever they are: a refusal with code 20 or 17, or what was shown, and how many commits it has. What is shown stands at
// the start of `out`, one byte a commit.
pub fn judge_image(image: &[u8], out: &mut [u8]) -> Result<Shown, Refusal>
    ensures answer { arrangement_of result ≡ shown_answer image.now (length out.old) }
    ensures shown { out.new ≡ shown_after image.now out.old }
    ensures holds { ImageClaim image.now }
{
    if !reading::shape::shape(image) {
        return Err(Refusal::of_record(Code::NoImage as usize, 0));
    }
    if out.len() < Store::COMMITS {
        return Err(Refusal::of_record(Code::Room as usize, 0));
    }
    let mut rows = [0u64; Store::NUMBERS];
    reading::linking::fill(image, &mut rows);
    let commits = endian::byte_at(image, 5);
    Ok(placing::order_or_ring(&rows, commits, out))
}
