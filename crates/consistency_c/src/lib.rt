// The archive for callers in Rust and C: the calls of crates/consistency, which says what each does, under the same names and with the same promises.
#![tactic(auto)]

ghost use Rattle.std.specs.Prelude.{◌≡◌, List, [], ◌++◌, ℕ, ◌≤◌, ◌<◌, length};
ghost use Rattle.endian.specs.Endian.{put_at};
ghost use Rattle.answer.specs.Answer.{image_after, ImageFits};
ghost use Rattle.answer.specs.Demand3.{Demand3};
ghost use Rattle.answer.specs.Recorded.{ImageSays};
ghost use Rattle.answer.specs.Written.{replay_answer, replay_after, ReplayFits, ReadsBack};
ghost use Rattle.answer.specs.Converted.{convert_answer, convert_after, WrittenSame};
ghost use Rattle.trace.specs.Edition as Editions;
ghost use Rattle.judging.specs.Answers.{told_answer};
ghost use Rattle.rejudging.specs.Plain.{plain_answer, EnginesAgree};
ghost use Rattle.arranging.specs.Answer.{shown_answer, shown_after};
ghost use Rattle.arranging.specs.Claim.{ImageClaim};
ghost use Rattle.visible.specs.Claim.{Visibility};
ghost use Rattle.seeing.specs.Answer.{visibility_answer, table_after};
ghost use Rattle.pieces.specs.Piece.{opened, piece_code, counted, kept_after};
ghost use Rattle.pieces.specs.Close.{close_answer, close_image, RefusalKeepsImage, shut};
ghost use Rattle.pieces.specs.Has.{Has, JudgesJoined};
ghost use Rattle.report.specs.Report.{report_text};
ghost use Rattle.report.specs.Longest.{longest_report};
ghost use Rattle.words.specs.Layout.{no_room, refusal_length, replay_words, shown_code, shown_words, answer_length, answer_words, code_of};

use pieces::Session;

#[unsafe(no_mangle)]
pub extern "C" fn judge_file(file: &[u8], image: &mut [u8], out: &mut [u64]) -> u64
    ensures room { length out.old < answer_length
        → (result ≡ no_room) × (out.new ≡ out.old) × (image.new ≡ image.old) }
    ensures answer { answer_length ≤ length out.old
        → (result ≡ code_of (told_answer file.now (length image.old)))
        × (out.new ≡ put_at out.old 0 (answer_words (told_answer file.now (length image.old))))
        × (image.new ≡ image_after file.now image.old) }
    ensures longest { ImageFits file.now }
    ensures demand3 { Demand3 file.now }
    ensures says { ImageSays file.now }
{
    consistency::judge_file(file, image, out)
}

#[unsafe(no_mangle)]
pub extern "C" fn plain_file(file: &[u8], out: &mut [u64]) -> u64
    ensures room { length out.old < answer_length → (result ≡ no_room) × (out.new ≡ out.old) }
    ensures answer { answer_length ≤ length out.old
        → (result ≡ code_of (plain_answer file.now)) × (out.new ≡ put_at out.old 0 (answer_words (plain_answer file.now))) }
    ensures agree { EnginesAgree file.now }
{
    consistency::plain_file(file, out)
}

#[unsafe(no_mangle)]
pub extern "C" fn replay_file(file: &[u8], buffer: &mut [u8], out: &mut [u64]) -> u64
    ensures room { length out.old < refusal_length
        → (result ≡ no_room) × (out.new ≡ out.old) × (buffer.new ≡ buffer.old) }
    ensures answer { refusal_length ≤ length out.old
        → (result ≡ code_of (replay_answer file.now (length buffer.old)))
        × (out.new ≡ put_at out.old 0 (replay_words (replay_answer file.now (length buffer.old))))
        × (buffer.new ≡ replay_after file.now buffer.old)
        × ReadsBack file.now (length buffer.old) buffer.new }
    ensures longest { ReplayFits file.now }
{
    consistency::replay_file(file, buffer, out)
}

#[unsafe(no_mangle)]
pub extern "C" fn short_file(file: &[u8], buffer: &mut [u8], out: &mut [u64]) -> u64
    ensures room { length out.old < refusal_length
        → (result ≡ no_room) × (out.new ≡ out.old) × (buffer.new ≡ buffer.old) }
    ensures answer { refusal_length ≤ length out.old
        → (result ≡ code_of (convert_answer Editions.short file.now (length buffer.old)))
        × (out.new ≡ put_at out.old 0 (replay_words (convert_answer Editions.short file.now (length buffer.old))))
        × (buffer.new ≡ convert_after Editions.short file.now buffer.old)
        × WrittenSame Editions.short file.now (length buffer.old) buffer.new }
{
    consistency::short_file(file, buffer, out)
}

#[unsafe(no_mangle)]
pub extern "C" fn long_file(file: &[u8], buffer: &mut [u8], out: &mut [u64]) -> u64
    ensures room { length out.old < refusal_length
        → (result ≡ no_room) × (out.new ≡ out.old) × (buffer.new ≡ buffer.old) }
    ensures answer { refusal_length ≤ length out.old
        → (result ≡ code_of (convert_answer Editions.long file.now (length buffer.old)))
        × (out.new ≡ put_at out.old 0 (replay_words (convert_answer Editions.long file.now (length buffer.old))))
        × (buffer.new ≡ convert_after Editions.long file.now buffer.old)
        × WrittenSame Editions.long file.now (length buffer.old) buffer.new }
{
    consistency::long_file(file, buffer, out)
}

#[unsafe(no_mangle)]
pub extern "C" fn judge_image(image: &[u8], shown: &mut [u8], out: &mut [u64]) -> u64
    ensures room { length out.old < refusal_length
        → (result ≡ no_room) × (out.new ≡ out.old) × (shown.new ≡ shown.old) }
    ensures answer { refusal_length ≤ length out.old
        → (result ≡ shown_code (shown_answer image.now (length shown.old)))
        × (out.new ≡ put_at out.old 0 (shown_words (shown_answer image.now (length shown.old))))
        × (shown.new ≡ shown_after image.now shown.old) }
    ensures holds { ImageClaim image.now }
{
    consistency::judge_image(image, shown, out)
}

#[unsafe(no_mangle)]
pub extern "C" fn visibility_file(
    file: &[u8],
    image: &mut [u8],
    rows: &mut [u64],
    out: &mut [u64],
) -> u64
    ensures room { length out.old < answer_length
        → (result ≡ no_room) × (out.new ≡ out.old) × (image.new ≡ image.old) × (rows.new ≡ rows.old) }
    ensures answer { answer_length ≤ length out.old
        → (result ≡ code_of (visibility_answer file.now (length image.old) (length rows.old)))
        × (out.new ≡ put_at out.old 0 (answer_words (visibility_answer file.now (length image.old) (length rows.old))))
        × (image.new ≡ image_after file.now image.old)
        × (rows.new ≡ table_after file.now (length image.old) rows.old) }
    ensures holds { Visibility file.now }
{
    consistency::visibility_file(file, image, rows, out)
}

#[unsafe(no_mangle)]
pub extern "C" fn report_file(file: &[u8], image: &mut [u8], text: &mut [u8]) -> usize
    ensures room { length text.old < longest_report
        → (result ≡ 0) × (text.new ≡ text.old) × (image.new ≡ image.old) }
    ensures report { longest_report ≤ length text.old
        → (result ≡ length (report_text (told_answer file.now (length image.old))))
        × (text.new ≡ put_at text.old 0 (report_text (told_answer file.now (length image.old))))
        × (image.new ≡ image_after file.now image.old) }
    ensures longest { result ≤ longest_report }
    ensures demand3 { Demand3 file.now }
    ensures says { ImageSays file.now }
{
    consistency::report_file(file, image, text)
}

#[unsafe(no_mangle)]
pub extern "C" fn open_session(session: &mut Session)
    ensures { (session.new ≡ opened) × ((kept : List ℕ) → Has [] session.new kept) }
{
    consistency::open_session(session)
}

#[unsafe(no_mangle)]
pub extern "C" fn push_piece(session: &mut Session, kept: &mut [u8], piece: &[u8]) -> u64
    ensures piece { (result ≡ piece_code session.old)
        × (session.new ≡ counted session.old (length piece.now))
        × (kept.new ≡ kept_after session.old kept.old piece.now) }
    ensures has { (bytes : List ℕ) → Has bytes session.old kept.old → Has (bytes ++ piece.now) session.new kept.new }
{
    consistency::push_piece(session, kept, piece)
}

#[unsafe(no_mangle)]
pub extern "C" fn close_session(
    session: &mut Session,
    kept: &[u8],
    image: &mut [u8],
    out: &mut [u64],
) -> u64
    ensures room { length out.old < answer_length
        → (result ≡ no_room) × (out.new ≡ out.old) × (image.new ≡ image.old) × (session.new ≡ session.old) }
    ensures answer { answer_length ≤ length out.old
        → (result ≡ code_of (close_answer session.old kept.now (length image.old)))
        × (out.new ≡ put_at out.old 0 (answer_words (close_answer session.old kept.now (length image.old))))
        × (image.new ≡ close_image session.old kept.now image.old)
        × (session.new ≡ shut session.old) }
    ensures joined { JudgesJoined session.old kept.now image.old }
    ensures refused { RefusalKeepsImage session.old kept.now image.old }
{
    consistency::close_session(session, kept, image, out)
}

#[unsafe(no_mangle)]
pub extern "C" fn report_session(
    session: &mut Session,
    kept: &[u8],
    image: &mut [u8],
    text: &mut [u8],
) -> usize
    ensures room { length text.old < longest_report
        → (result ≡ 0) × (text.new ≡ text.old) × (image.new ≡ image.old) × (session.new ≡ session.old) }
    ensures report { longest_report ≤ length text.old
        → (result ≡ length (report_text (close_answer session.old kept.now (length image.old))))
        × (text.new ≡ put_at text.old 0 (report_text (close_answer session.old kept.now (length image.old))))
        × (image.new ≡ close_image session.old kept.now image.old)
        × (session.new ≡ shut session.old) }
    ensures longest { result ≤ longest_report }
    ensures joined { JudgesJoined session.old kept.now image.old }
    ensures refused { RefusalKeepsImage session.old kept.now image.old }
{
    consistency::report_session(session, kept, image, text)
}
