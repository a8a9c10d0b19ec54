// Judges the trace file on standard input, piece by piece as it comes, and prints the report: that of `judge` for the same bytes, wherever they are cut. Input
// that cannot be read is no file: it gets a line on standard error and no report.
#![tactic(auto)]

use store::Store;

fn main(rt: HostRuntime) {
    let mut kept = [0u8; Store::BYTES];
    let mut piece = [0u8; 4096];
    let mut session = pieces::open();
    // What comes after a file is seen to be too long changes nothing, and is not waited for.
    while session.total <= Store::BYTES {
        let Ok(n) = streams::read_some(&rt, &mut rt.stdin(), b"standard input", &mut piece) else {
            return;
        };
        if n == 0 {
            break;
        }
        let step = pieces::take(session, &mut kept, &piece[..n]);
        session = step.session;
    }
    let mut image = [0u8; Store::IMAGE];
    let end = pieces::finish(session, &kept, &mut image);
    filters::print(&rt, end.answer);
}
