// What the programs share. Input that cannot be read is no file: it gets a line on standard error. Of a program that makes a file of the trace file on standard
// input a refusal is a line on standard error, and nothing is written to standard output then, so that a pipe never carries half an answer.
#![tactic(auto)]

ghost use Rattle.std.specs.Prelude.{◌≤◌, length};
ghost use Rattle.streams.specs.Input.{Within};

use judging::Answer;
use state::Refusal;
use std::io::Write;
use streams::Failed;

// The file on standard input, or as much of it as the buffer takes.
pub fn read_file(rt: &HostRuntime, file: &mut [u8]) -> Result<usize, Failed>
    ensures { Within result file.new }
{
    streams::read_whole(rt, &mut rt.stdin(), b"standard input", file)
}

// The report of an answer, to the stream of that name.
fn put_report<W: Write>(rt: &HostRuntime, to: &mut W, name: &[u8], answer: Answer) {
    let mut text = [0u8; report::LONGEST];
    let length = report::write(answer, &mut text);
    streams::write_whole(rt, to, name, &text[..length]);
}

// The report of an answer, to standard output.
pub fn print(rt: &HostRuntime, answer: Answer) {
    put_report(rt, &mut rt.stdout(), b"standard output", answer);
}

// The line of a refusal, on standard error.
pub fn refuse(rt: &HostRuntime, refusal: Refusal) {
    put_report(rt, &mut rt.stderr(), b"standard error", Err(refusal));
}

// The file that was written, at the start of the buffer: so many bytes, to standard output.
pub fn write_file(rt: &HostRuntime, buffer: &[u8], size: usize)
    requires { size ≤ length buffer.now }
{
    streams::write_whole(rt, &mut rt.stdout(), b"standard output", &buffer[..size]);
}
