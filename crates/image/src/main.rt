// Writes the image of the store that the trace file on standard input ends in to standard output (02, E8); or its refusal, as crates/filters says.
#![tactic(auto)]

use store::Store;

fn main(rt: HostRuntime) {
    // Room for one byte more than a file may have, so that a longer input is seen to be too long.
    let mut file = [0u8; Store::BYTES + 1];
    let Ok(n) = filters::read_file(&rt, &mut file) else {
        return;
    };
    let mut buffer = [0u8; Store::IMAGE];
    match judging::judge(&file[..n], &mut buffer) {
        Ok(judged) => filters::write_file(&rt, &buffer, judged.image_length),
        Err(refusal) => filters::refuse(&rt, refusal),
    }
}
