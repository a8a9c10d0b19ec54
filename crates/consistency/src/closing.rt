// What the calls on a session do, with the record by value: the calls are lent it, and are thin. Each step answers the record afterwards beside its answer.
ghost use Rattle.std.specs.Prelude.{◌≡◌, ◌≤◌, ◌<◌, length};
ghost use Rattle.endian.specs.Endian.{put_at};
ghost use Rattle.pieces.specs.Close.{close_answer, close_image, RefusalKeepsImage, shut};
ghost use Rattle.pieces.specs.Has.{JudgesJoined};
ghost use Rattle.report.specs.Report.{report_text};
ghost use Rattle.report.specs.Longest.{longest_report};
ghost use Rattle.words.specs.Layout.{no_room, answer_length, answer_words, code_of};

use pieces::{Session, Step};

// The close with its answer in words.
pub fn in_words(was: Session, kept: &[u8], image: &mut [u8], out: &mut [u64]) -> Step
    ensures { (length out.old < answer_length
        → (result.code ≡ no_room) × (out.new ≡ out.old) × (image.new ≡ image.old) × (result.session ≡ was))
        × (answer_length ≤ length out.old
        → (result.code ≡ code_of (close_answer was kept.now (length image.old)))
        × (out.new ≡ put_at out.old 0 (answer_words (close_answer was kept.now (length image.old))))
        × (image.new ≡ close_image was kept.now image.old)
        × (result.session ≡ shut was))
        × JudgesJoined was kept.now image.old
        × RefusalKeepsImage was kept.now image.old }
{
    if out.len() < words::ANSWER {
        return Step {
            session: was,
            code: words::NO_ROOM,
        };
    }
    let end = pieces::finish(was, kept, image);
    let session = end.session;
    let answer = end.answer;
    let code = words::put_answer(out, answer);
    Step { session, code }
}

// A report, and the record after the close.
#[derive(Clone, Copy)]
pub struct Reported {
    pub session: Session,
    pub length: usize,
}

// The close with its report.
pub fn as_text(was: Session, kept: &[u8], image: &mut [u8], text: &mut [u8]) -> Reported
    ensures { (length text.old < longest_report
        → (result.length ≡ 0) × (text.new ≡ text.old) × (image.new ≡ image.old) × (result.session ≡ was))
        × (longest_report ≤ length text.old
        → (result.length ≡ length (report_text (close_answer was kept.now (length image.old))))
        × (text.new ≡ put_at text.old 0 (report_text (close_answer was kept.now (length image.old))))
        × (image.new ≡ close_image was kept.now image.old)
        × (result.session ≡ shut was))
        × (result.length ≤ longest_report)
        × JudgesJoined was kept.now image.old
        × RefusalKeepsImage was kept.now image.old }
{
    if text.len() < report::LONGEST {
        return Reported {
            session: was,
            length: 0,
        };
    }
    let end = pieces::finish(was, kept, image);
    let session = end.session;
    let answer = end.answer;
    let length = report::write(answer, text);
    Reported { session, length }
}
