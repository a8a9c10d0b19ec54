// Writes the trace file on standard input to standard output in the short edition, each shift as a kind 6 and each commit as a kind 5 (02, E6); or its refusal,
// as crates/filters says.
#![tactic(auto)]

use store::Store;

fn main(rt: HostRuntime) {
    // Room for one byte more than a file may have, so that a longer input is seen to be too long.
    let mut file = [0u8; Store::BYTES + 1];
    let Ok(n) = filters::read_file(&rt, &mut file) else {
        return;
    };
    let mut buffer = [0u8; Store::BYTES];
    match converting::short(&file[..n], &mut buffer) {
        Ok(size) => filters::write_file(&rt, &buffer, size),
        Err(refusal) => filters::refuse(&rt, refusal),
    }
}
