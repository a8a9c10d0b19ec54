// Judges each trace file that an argument names, and prints the file's name and its report. A file that cannot be read gets a line on standard error.
#![tactic(auto)]

ghost use Rattle.std.specs.Prelude.{◌+◌, ◌≤◌, length};
ghost use Rattle.streams.specs.Input.{Within};
ghost use Rattle.report.specs.Longest.{longest_report};

use std::env::{Env, FillError};
use std::io::{Error, ErrorKind};
use std::{fs, str};
use store::Store;
use streams::Failed;

// No path of the system's is longer.
const NAME: usize = 4096;

// The name of the file, a line feed and the report, at the start of `out`: so many bytes.
fn put_report(out: &mut [u8], name: &[u8], file: &[u8]) -> usize
    requires { length name.now + (1 + longest_report) ≤ length out.old }
    ensures { result ≤ length out.new }
{
    let named = text::put_bytes(out, 0, name);
    let from = text::put_bytes(out, named, b"\n");
    let mut image = [0u8; Store::IMAGE];
    from + report::write(judging::judge(file, &mut image), &mut out[from..])
}

// The file of that name, or as much of it as the buffer takes. One that cannot be opened is told of as one that cannot be read.
fn read_file(rt: &HostRuntime, name: &[u8], file: &mut [u8]) -> Result<usize, Failed>
    ensures { Within result file.new }
{
    let Ok(path) = str::from_utf8(name) else {
        streams::tell_error(rt, name, Error::from(ErrorKind::InvalidFilename));
        return Err(Failed);
    };
    match fs::open(rt, path) {
        Ok(mut opened) => streams::read_whole(rt, &mut opened, name, file),
        Err(error) => {
            streams::tell_error(rt, name, error);
            Err(Failed)
        }
    }
}

// The file that argument i names; whether to go on with the next.
fn judge_argument(rt: &HostRuntime, i: usize) -> bool {
    let mut name = [0u8; NAME];
    let length = match rt.arg(i, &mut name) {
        Ok(n) => n,
        // It names no file, and is told of as the empty name.
        Err(FillError::TooLong) => 0,
        Err(FillError::NotPresent) => return false,
    };
    let mut file = [0u8; Store::BYTES + 1];
    let Ok(n) = read_file(rt, &name[..length], &mut file) else {
        return true;
    };
    let mut out = [0u8; NAME + 1 + report::LONGEST];
    let whole = put_report(&mut out, &name[..length], &file[..n]);
    streams::write_whole(rt, &mut rt.stdout(), b"standard output", &out[..whole])
}

fn main(rt: HostRuntime) {
    for i in 1..usize::MAX {
        if !judge_argument(&rt, i) {
            break;
        }
    }
}
