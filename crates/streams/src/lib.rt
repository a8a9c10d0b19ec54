// Streams read to their end and written whole, for programs. A failure is told in a line on standard error, with its reason, and answered.
// A call that a signal interrupted is made again. So is one that found nothing ready, on a stream that does not wait, after a pause; after
// an hour of pauses without a byte it counts as failed.
#![tactic(auto)]

ghost use Rattle.std.specs.Prelude.{◌≡◌, true, ◌+◌, ◌≤◌, ◌<◌, length};
ghost use Rattle.streams.specs.Input.{bytes_read, Within};

use std::io::{Cursor, Error, ErrorKind, Read, Write};
use std::thread;
use std::time::Duration;

// A read failed, and that was told. What was read before it is no input.
#[derive(Clone, Copy)]
pub struct Failed;

// How often a call that moved no byte is made again before it counts as failed: for an hour, where each time there is a pause of 10 milliseconds.
const PATIENCE: usize = 360000;

// Waits for 10 milliseconds.
fn pause(rt: &HostRuntime) {
    thread::sleep(rt, Duration::from_millis(10));
}

// The reason of the system's alone, of a text that has the system's number behind it in brackets.
fn without_number(text: &[u8]) -> &[u8] {
    match text.iter().rposition(|byte| *byte == b'(') {
        Some(bracket) => &text[..bracket.saturating_sub(1)],
        None => text,
    }
}

// Tells of a failure in a line on standard error: what it is told of, and the reason. Where that cannot be written there is nobody to tell.
fn tell(rt: &HostRuntime, name: &[u8], reason: &[u8]) {
    let mut to = rt.stderr();
    let _ = to.write_all(name);
    let _ = to.write_all(b": ");
    let _ = to.write_all(reason);
    let _ = to.write_all(b"\n");
}

// Tells of a call that failed, in the system's words where the failure is the system's.
pub fn tell_error(rt: &HostRuntime, name: &[u8], error: Error) {
    let mut text = [0u8; 320];
    let mut at = Cursor::new(&mut text[..]);
    let _ = write!(at, "{error}");
    let length = usize::try_from(at.position()).unwrap_or(0).min(320);
    let reason = &text[..length];
    match error.raw_os_error() {
        Some(_) => tell(rt, name, without_number(reason)),
        None => tell(rt, name, reason),
    }
}

// Whether a call that moved no byte is to be made again, where it may be so often more; where not, the failure is told.
fn again(rt: &HostRuntime, left: usize, name: &[u8], error: Error) -> bool
    ensures { result ≡ true → 0 < left }
{
    if 0 < left {
        if error.kind() == ErrorKind::Interrupted {
            return true;
        }
        if error.kind() == ErrorKind::WouldBlock {
            pause(rt);
            return true;
        }
    }
    tell_error(rt, name, error);
    false
}

// Reads what there is, as soon as there is any, and no more than the buffer takes: 0 bytes at the end of the input, or for an empty buffer; `name` is what a
// failure is told of.
pub fn read_some<R: Read>(
    rt: &HostRuntime,
    from: &mut R,
    name: &[u8],
    buffer: &mut [u8],
) -> Result<usize, Failed>
    ensures { Within result buffer.new }
{
    let mut left = PATIENCE;
    loop {
        match from.read(buffer) {
            Ok(n) => return Ok(n),
            Err(error) => {
                if !again(rt, left, name, error) {
                    return Err(Failed);
                }
                left = left - 1;
            }
        }
    }
}

// Reads to the part of the buffer from `done` on.
fn read_on<R: Read>(
    rt: &HostRuntime,
    from: &mut R,
    name: &[u8],
    buffer: &mut [u8],
    done: usize,
) -> Result<usize, Failed>
    requires { done ≤ length buffer.old }
    ensures { done + bytes_read result ≤ length buffer.new }
{
    read_some(rt, from, name, &mut buffer[done..])
}

// Reads to the end of the input, or until the buffer is full; `name` is what a failure is told of.
pub fn read_whole<R: Read>(
    rt: &HostRuntime,
    from: &mut R,
    name: &[u8],
    buffer: &mut [u8],
) -> Result<usize, Failed>
    ensures { Within result buffer.new }
{
    let mut done: usize = 0;
    while done < buffer.len() {
        let n = read_on(rt, from, name, buffer, done)?;
        if n == 0 {
            break;
        }
        done = done + n;
    }
    Ok(done)
}

// Tells of a write that took no byte and did not fail: there is no reason of the system's to tell.
fn none_taken(rt: &HostRuntime, name: &[u8]) {
    tell(rt, name, b"no byte was taken");
}

// Writes all of the text, at once where the system takes it, and answers whether it was written whole; `name` is what a failure is told of.
pub fn write_whole<W: Write>(rt: &HostRuntime, to: &mut W, name: &[u8], text: &[u8]) -> bool {
    let mut done: usize = 0;
    let mut left = PATIENCE;
    while done < text.len() {
        match to.write(&text[done..]) {
            Ok(0) => {
                none_taken(rt, name);
                return false;
            }
            Ok(more) => {
                done = done + more;
                left = PATIENCE;
            }
            Err(error) => {
                if !again(rt, left, name, error) {
                    return false;
                }
                left = left - 1;
            }
        }
    }
    true
}
