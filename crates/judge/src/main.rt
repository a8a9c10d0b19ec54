// Judges the trace file on standard input and prints the report. Input that cannot be read is no file: it gets a line on standard error and no report.
#![tactic(auto)]

use store::Store;

fn main(rt: HostRuntime) {
    // Room for one byte more than a file may have, so that a longer input is seen to be too long.
    let mut file = [0u8; Store::BYTES + 1];
    let Ok(n) = filters::read_file(&rt, &mut file) else {
        return;
    };
    let mut image = [0u8; Store::IMAGE];
    filters::print(&rt, judging::judge(&file[..n], &mut image));
}
