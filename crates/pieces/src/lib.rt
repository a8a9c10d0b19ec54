// A trace file that comes in pieces (02, E5). The caller keeps a small record, the session, and lends a buffer beside it, in which the bytes are kept: a piece
// costs what it is long. `push` and `close` change the record in place. Each is thin: it copies the record, and a function on values does the work. Nothing is asked of a record
// or of a buffer: the contracts are equations for any of them, and specs/Has.antt says what holds of a record that was opened and changed by pieces alone.
#![tactic(auto)]

ghost use Rattle.std.specs.Prelude.{◌≡◌, List, [], ◌++◌, ℕ, ◌+◌, min, length};
ghost use Rattle.judging.specs.Answers.{answer_of};
ghost use Rattle.pieces.specs.Piece.{opened, too_many, piece_code, counted, placed, kept_after};
ghost use Rattle.pieces.specs.Close.{close_answer, close_image, RefusalKeepsImage, shut};
ghost use Rattle.pieces.specs.Has.{Has, JudgesJoined};

use judging::Answer;
use state::{Code, Refusal};
use store::Store;

// Two words, of which any values are a record: how many bytes came, 65,537 for any number above 65,536; and 0, or another number where it is closed.
#[repr(C)]
#[derive(Clone, Copy)]
pub struct Session {
    pub total: usize,
    pub closed: u64,
}

// The code of a piece, or of a close, after the close.
pub const CLOSED: u64 = Code::Closed as u64;

// A new record, which has taken no bytes.
pub fn open() -> Session
    ensures value { result ≡ opened }
    ensures has { (kept : List ℕ) → Has [] result kept }
{
    Session {
        total: 0,
        closed: 0,
    }
}

// ---- a piece

// The number of bytes after so many more.
fn count(total: usize, more: usize) -> usize
    ensures { result ≡ min (total + more) too_many }
{
    if Store::BYTES < total {
        return Store::BYTES + 1;
    }
    if Store::BYTES - total < more {
        return Store::BYTES + 1;
    }
    total + more
}

// A piece is kept from `at` on, as far as there is room for it.
fn keep(kept: &mut [u8], at: usize, piece: &[u8])
    ensures { kept.new ≡ placed kept.old at piece.now }
{
    let room = Store::BYTES.min(kept.len());
    if room <= at {
        return;
    }
    let n = (room - at).min(piece.len());
    text::put_bytes(kept, at, &piece[..n]);
}

// What a piece answers, and the record after it.
#[derive(Clone, Copy)]
pub struct Step {
    pub session: Session,
    pub code: u64,
}

// A piece of a session that was so.
pub fn take(was: Session, kept: &mut [u8], piece: &[u8]) -> Step
    ensures { (result.session ≡ counted was (length piece.now))
        × (result.code ≡ piece_code was)
        × (kept.new ≡ kept_after was kept.old piece.now) }
{
    let total = was.total;
    if was.closed != 0 {
        return Step {
            session: was,
            code: CLOSED,
        };
    }
    keep(kept, total, piece);
    let session = Session {
        total: count(total, piece.len()),
        closed: 0,
    };
    Step { session, code: 0 }
}

// Takes a piece: 0; or 18 after the close, and nothing is changed. A record that has taken some bytes has taken these behind them.
pub fn push(session: &mut Session, kept: &mut [u8], piece: &[u8]) -> u64
    ensures piece { (result ≡ piece_code session.old)
        × (session.new ≡ counted session.old (length piece.now))
        × (kept.new ≡ kept_after session.old kept.old piece.now) }
    ensures has { (bytes : List ℕ) → Has bytes session.old kept.old → Has (bytes ++ piece.now) session.new kept.new }
{
    let step = take(*session, kept, piece);
    *session = step.session;
    step.code
}

// ---- the close

// What a close answers, and the record after it.
#[derive(Clone, Copy)]
pub struct Ending {
    pub session: Session,
    pub answer: Answer,
}

// What is answered for a session that was so.
fn answer(was: Session, kept: &[u8], image: &mut [u8]) -> Answer
    ensures result_value { answer_of result ≡ close_answer was kept.now (length image.old) }
    ensures image_after { image.new ≡ close_image was kept.now image.old }
{
    let total = was.total;
    if was.closed != 0 {
        return Err(Refusal::of_record(Code::Closed as usize, 0));
    }
    if Store::BYTES < total {
        return Err(Refusal::of_record(Code::FileLength as usize, 0));
    }
    if kept.len() < total {
        return Err(Refusal::of_record(Code::Room as usize, 0));
    }
    judging::judge(&kept[..total], image)
}

// A session that was so is closed, and a closed one stays.
fn ended(was: Session) -> Session
    ensures { result ≡ shut was }
{
    if was.closed != 0 {
        return was;
    }
    Session {
        total: was.total,
        closed: 1,
    }
}

// The close of a session that was so.
pub fn finish(was: Session, kept: &[u8], image: &mut [u8]) -> Ending
    ensures { (result.session ≡ shut was)
        × (answer_of result.answer ≡ close_answer was kept.now (length image.old))
        × (image.new ≡ close_image was kept.now image.old)
        × JudgesJoined was kept.now image.old
        × RefusalKeepsImage was kept.now image.old }
{
    let answer = answer(was, kept, image);
    let session = ended(was);
    Ending { session, answer }
}

// Judges the file that was kept, and closes the session. It answers as `judge` does; or 18 after the close, and nothing is changed; or 17, where what came has
// no room in the buffer. Whatever it answers the session is closed, and a refusal leaves the image as it came. The answer and the image of a record that has
// taken some bytes, with a buffer that has room for them, are those of the file of these bytes.
pub fn close(session: &mut Session, kept: &[u8], image: &mut [u8]) -> Answer
    ensures session { session.new ≡ shut session.old }
    ensures answer { answer_of result ≡ close_answer session.old kept.now (length image.old) }
    ensures image { image.new ≡ close_image session.old kept.now image.old }
    ensures joined { JudgesJoined session.old kept.now image.old }
    ensures refused { RefusalKeepsImage session.old kept.now image.old }
{
    let end = finish(*session, kept, image);
    *session = end.session;
    end.answer
}
