// Every call for callers in Rust and C, each with all that is promised of it. A call is lent a trace file or an image, the places that it writes to, and words
// for its answer; it answers a code, and nothing is asked of its caller. Which word is what stands in crates/words/specs/Layout.antt: a refusal has the same
// words for all calls. What the answer is stands in the definitions that the contracts name. The archive for callers is that of crates/consistency_c, which
// has a call of the same name for each of these, with the same promises.
#![tactic(auto)]

mod closing; // closing.rt: the close of a session, with the record by value

ghost use Rattle.std.specs.Prelude.{◌≡◌, List, [], ◌++◌, ℕ, ◌≤◌, ◌<◌, length};
ghost use Rattle.endian.specs.Endian.{put_at};
ghost use Rattle.answer.specs.Answer.{image_after, ImageFits};
ghost use Rattle.answer.specs.Demand3.{Demand3};
ghost use Rattle.answer.specs.Recorded.{ImageSays};
ghost use Rattle.answer.specs.Written.{replay_answer, replay_after, ReplayFits, ReadsBack};
ghost use Rattle.answer.specs.Converted.{convert_answer, convert_after, WrittenSame};
ghost use Rattle.trace.specs.Edition as Editions;
ghost use Rattle.judging.specs.Answers.{told_answer};
ghost use Rattle.rejudging.specs.Plain.{plain_answer, EnginesAgree};
ghost use Rattle.converting.specs.Answers.{edition_of};
ghost use Rattle.arranging.specs.Answer.{shown_answer, shown_after};
ghost use Rattle.arranging.specs.Claim.{ImageClaim};
ghost use Rattle.visible.specs.Claim.{Visibility};
ghost use Rattle.seeing.specs.Answer.{visibility_answer, table_after};
ghost use Rattle.pieces.specs.Piece.{opened, piece_code, counted, kept_after};
ghost use Rattle.pieces.specs.Close.{close_answer, close_image, RefusalKeepsImage, shut};
ghost use Rattle.pieces.specs.Has.{Has, JudgesJoined};
ghost use Rattle.report.specs.Report.{report_text};
ghost use Rattle.report.specs.Longest.{longest_report};
ghost use Rattle.words.specs.Layout.{no_room, refusal_length, replay_words, shown_code, shown_words, answer_length, answer_words, code_of};

use converting::Edition;
use pieces::Session;

// Judges a trace file: ten verdicts, and the image of its store at the start of `image`; or a refusal with codes 1 to 15, and `image` as it came.
// Where there is no room for the words nothing is judged. No file has an image longer than `max_image` bytes: with such a buffer there is no code 15. Read back, the
// image says the whole store, and each view in it is one of the store as it was before its commit.
pub fn judge_file(file: &[u8], image: &mut [u8], out: &mut [u64]) -> u64
    ensures room { length out.old < answer_length
        → (result ≡ no_room) × (out.new ≡ out.old) × (image.new ≡ image.old) }
    ensures answer { answer_length ≤ length out.old
        → (result ≡ code_of (told_answer file.now (length image.old)))
        × (out.new ≡ put_at out.old 0 (answer_words (told_answer file.now (length image.old))))
        × (image.new ≡ image_after file.now image.old) }
    ensures longest { ImageFits file.now }
    ensures demand3 { Demand3 file.now }
    ensures says { ImageSays file.now }
{
    if out.len() < words::ANSWER {
        return words::NO_ROOM;
    }
    words::put_answer(out, judging::judge(file, image))
}

// Judges a trace file by the plain second engine (02, E10): the words that `judge_file` writes where its image buffer is long enough, for every file; no image is
// written, and code 15 is not used. Where there is no room for the words nothing is judged.
pub fn plain_file(file: &[u8], out: &mut [u64]) -> u64
    ensures room { length out.old < answer_length → (result ≡ no_room) × (out.new ≡ out.old) }
    ensures answer { answer_length ≤ length out.old
        → (result ≡ code_of (plain_answer file.now)) × (out.new ≡ put_at out.old 0 (answer_words (plain_answer file.now))) }
    ensures agree { EnginesAgree file.now }
{
    let room = out.len();
    if room < words::ANSWER {
        return words::NO_ROOM;
    }
    words::put_answer(out, rejudging::plain(file))
}

// Writes the replay of a trace file (02, E1) as a file at the start of `buffer`: its commits in their order, each made from a full view and left with one. Or
// a refusal with codes 1 to 14; 16, where serialisability does not accept the trace; 17, where `buffer` is shorter than the file; and `buffer` as it
// came. What was written reads back with the same store and image, and all levels accept it. No replay is longer than `max_replay` bytes. Where there is no
// room for the words of a refusal nothing is done.
pub fn replay_file(file: &[u8], buffer: &mut [u8], out: &mut [u64]) -> u64
    ensures room { length out.old < refusal_length
        → (result ≡ no_room) × (out.new ≡ out.old) × (buffer.new ≡ buffer.old) }
    ensures answer { refusal_length ≤ length out.old
        → (result ≡ code_of (replay_answer file.now (length buffer.old)))
        × (out.new ≡ put_at out.old 0 (replay_words (replay_answer file.now (length buffer.old))))
        × (buffer.new ≡ replay_after file.now buffer.old)
        × ReadsBack file.now (length buffer.old) buffer.new }
    ensures longest { ReplayFits file.now }
{
    if out.len() < words::REFUSAL {
        return words::NO_ROOM;
    }
    words::put_replay(out, replaying::write(file, buffer))
}

// A taken file in an edition; where there is no room for the words of a refusal nothing is done.
fn convert_file(file: &[u8], buffer: &mut [u8], out: &mut [u64], edition: Edition) -> u64
    ensures room { length out.old < refusal_length
        → (result ≡ no_room) × (out.new ≡ out.old) × (buffer.new ≡ buffer.old) }
    ensures answer { refusal_length ≤ length out.old
        → (result ≡ code_of (convert_answer (edition_of edition) file.now (length buffer.old)))
        × (out.new ≡ put_at out.old 0 (replay_words (convert_answer (edition_of edition) file.now (length buffer.old))))
        × (buffer.new ≡ convert_after (edition_of edition) file.now buffer.old)
        × WrittenSame (edition_of edition) file.now (length buffer.old) buffer.new }
{
    let room = out.len();
    if room < words::REFUSAL {
        return words::NO_ROOM;
    }
    words::put_replay(out, converting::convert(file, buffer, edition))
}

// Writes a taken file short (02, E6) at the start of `buffer`, record for record: each shift as a kind 6 that lists exactly the keys that change, each commit as
// a kind 5. Or a refusal with codes 1 to 14; 22, where the file would be longer than 65,536 bytes; 17, where `buffer` is shorter than the file; and `buffer` as
// it came. What was written gets the same answer and image, and written long it is what the other would be. Where there is no room for the words of a
// refusal nothing is done.
pub fn short_file(file: &[u8], buffer: &mut [u8], out: &mut [u64]) -> u64
    ensures room { length out.old < refusal_length
        → (result ≡ no_room) × (out.new ≡ out.old) × (buffer.new ≡ buffer.old) }
    ensures answer { refusal_length ≤ length out.old
        → (result ≡ code_of (convert_answer Editions.short file.now (length buffer.old)))
        × (out.new ≡ put_at out.old 0 (replay_words (convert_answer Editions.short file.now (length buffer.old))))
        × (buffer.new ≡ convert_after Editions.short file.now buffer.old)
        × WrittenSame Editions.short file.now (length buffer.old) buffer.new }
{
    convert_file(file, buffer, out, Edition::Short)
}

// The same, long: each shift as a kind 2, each commit as a kind 3.
pub fn long_file(file: &[u8], buffer: &mut [u8], out: &mut [u64]) -> u64
    ensures room { length out.old < refusal_length
        → (result ≡ no_room) × (out.new ≡ out.old) × (buffer.new ≡ buffer.old) }
    ensures answer { refusal_length ≤ length out.old
        → (result ≡ code_of (convert_answer Editions.long file.now (length buffer.old)))
        × (out.new ≡ put_at out.old 0 (replay_words (convert_answer Editions.long file.now (length buffer.old))))
        × (buffer.new ≡ convert_after Editions.long file.now buffer.old)
        × WrittenSame Editions.long file.now (length buffer.old) buffer.new }
{
    convert_file(file, buffer, out, Edition::Long)
}

// Judges a bare image (02, E9): an order of its commits, each made from a full view, that gives what the image says, the lowest-numbered ready commit first
// each time; or with code 19 a ring of links, which is given exactly where no order exists. Either goes to the start of `shown`, one byte a commit, and
// its length is answered. Or a refusal with code 20, where the image is misshapen; 17, where `shown` has under 63 bytes; and `shown` as it came. The image
// that is written for a trace is never misshapen, and has an order where serialisability accepts the trace. Where there is no room for the words of a
// refusal nothing is done.
pub fn judge_image(image: &[u8], shown: &mut [u8], out: &mut [u64]) -> u64
    ensures room { length out.old < refusal_length
        → (result ≡ no_room) × (out.new ≡ out.old) × (shown.new ≡ shown.old) }
    ensures answer { refusal_length ≤ length out.old
        → (result ≡ shown_code (shown_answer image.now (length shown.old)))
        × (out.new ≡ put_at out.old 0 (shown_words (shown_answer image.now (length shown.old))))
        × (shown.new ≡ shown_after image.now shown.old) }
    ensures holds { ImageClaim image.now }
{
    if out.len() < words::REFUSAL {
        return words::NO_ROOM;
    }
    words::put_shown(out, arranging::judge_image(image, shown))
}

// Judges a trace file as `judge_file` does, and says which commit is visible to which (02, E14): for each commit in order a row at the start of `rows`, bit c
// set exactly if commit c is visible to it, bit 0 never; further rows keep what they had. Or the refusal of `judge_file`; or 21, where there are fewer rows than
// commits, and then `image` is left as `judge_file` leaves it. Any refusal leaves `rows` as it came. Where there is no room for the words nothing is
// judged. What holds of the rows, whatever was judged, is `Visibility`.
pub fn visibility_file(file: &[u8], image: &mut [u8], rows: &mut [u64], out: &mut [u64]) -> u64
    ensures room { length out.old < answer_length
        → (result ≡ no_room) × (out.new ≡ out.old) × (image.new ≡ image.old) × (rows.new ≡ rows.old) }
    ensures answer { answer_length ≤ length out.old
        → (result ≡ code_of (visibility_answer file.now (length image.old) (length rows.old)))
        × (out.new ≡ put_at out.old 0 (answer_words (visibility_answer file.now (length image.old) (length rows.old))))
        × (image.new ≡ image_after file.now image.old)
        × (rows.new ≡ table_after file.now (length image.old) rows.old) }
    ensures holds { Visibility file.now }
{
    if words::ANSWER > out.len() {
        return words::NO_ROOM;
    }
    words::put_answer(out, seeing::report(file, image, rows))
}

// The report on a trace file as text, at the start of `text`, and its length; `image` is left as `judge_file` leaves it. Where `text` is shorter than the
// longest report nothing is judged, and 0 is answered.
pub fn report_file(file: &[u8], image: &mut [u8], text: &mut [u8]) -> usize
    ensures room { length text.old < longest_report
        → (result ≡ 0) × (text.new ≡ text.old) × (image.new ≡ image.old) }
    ensures report { longest_report ≤ length text.old
        → (result ≡ length (report_text (told_answer file.now (length image.old))))
        × (text.new ≡ put_at text.old 0 (report_text (told_answer file.now (length image.old))))
        × (image.new ≡ image_after file.now image.old) }
    ensures longest { result ≤ longest_report }
    ensures demand3 { Demand3 file.now }
    ensures says { ImageSays file.now }
{
    if text.len() < report::LONGEST {
        return 0;
    }
    report::write(judging::judge(file, image), text)
}

// ---- a trace file that comes in pieces (02, E5)

// Opens a session: `session` is a record that has taken no bytes, whatever it was.
pub fn open_session(session: &mut Session)
    ensures { (session.new ≡ opened) × ((kept : List ℕ) → Has [] session.new kept) }
{
    *session = pieces::open();
}

// Takes a piece, behind those before it: 0; or 18 after the close, and nothing is changed. The bytes are kept in `kept`, as far as it has room and a file
// may have them, and all are counted.
pub fn push_piece(session: &mut Session, kept: &mut [u8], piece: &[u8]) -> u64
    ensures piece { (result ≡ piece_code session.old)
        × (session.new ≡ counted session.old (length piece.now))
        × (kept.new ≡ kept_after session.old kept.old piece.now) }
    ensures has { (bytes : List ℕ) → Has bytes session.old kept.old → Has (bytes ++ piece.now) session.new kept.new }
{
    pieces::push(session, kept, piece)
}

// Judges what was kept, as `judge_file` does a file, and closes the session; or a refusal with codes 1 to 15; 17, where what came has no room in `kept`; 18,
// after the close, and nothing is changed. A refusal leaves `image` as it came, and has closed. Where there is no room for the words nothing is done, and
// the session stays as it was. The answer for a record that has taken some bytes, with a buffer that has room for them, is that of `judge_file` for these bytes.
pub fn close_session(session: &mut Session, kept: &[u8], image: &mut [u8], out: &mut [u64]) -> u64
    ensures room { length out.old < answer_length
        → (result ≡ no_room) × (out.new ≡ out.old) × (image.new ≡ image.old) × (session.new ≡ session.old) }
    ensures answer { answer_length ≤ length out.old
        → (result ≡ code_of (close_answer session.old kept.now (length image.old)))
        × (out.new ≡ put_at out.old 0 (answer_words (close_answer session.old kept.now (length image.old))))
        × (image.new ≡ close_image session.old kept.now image.old)
        × (session.new ≡ shut session.old) }
    ensures joined { JudgesJoined session.old kept.now image.old }
    ensures refused { RefusalKeepsImage session.old kept.now image.old }
{
    let step = closing::in_words(*session, kept, image, out);
    *session = step.session;
    step.code
}

// The report on what was kept, as `report_file` writes it, and its length; the session is closed, and `image` left, as `close_session` does. Where `text` is
// shorter than the longest report nothing is done, the session stays as it was, and 0 is answered.
pub fn report_session(
    session: &mut Session,
    kept: &[u8],
    image: &mut [u8],
    text: &mut [u8],
) -> usize
    ensures room { length text.old < longest_report
        → (result ≡ 0) × (text.new ≡ text.old) × (image.new ≡ image.old) × (session.new ≡ session.old) }
    ensures report { longest_report ≤ length text.old
        → (result ≡ length (report_text (close_answer session.old kept.now (length image.old))))
        × (text.new ≡ put_at text.old 0 (report_text (close_answer session.old kept.now (length image.old))))
        × (image.new ≡ close_image session.old kept.now image.old)
        × (session.new ≡ shut session.old) }
    ensures longest { result ≤ longest_report }
    ensures joined { JudgesJoined session.old kept.now image.old }
    ensures refused { RefusalKeepsImage session.old kept.now image.old }
{
    let end = closing::as_text(*session, kept, image, text);
    *session = end.session;
    end.length
}
