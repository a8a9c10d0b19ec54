// Prints which commits of the trace file on standard input are visible to which (02, E14): for each commit in order a line with its row in decimal, in which bit
// c is set exactly if commit c is visible to it; or the line of a refusal. A trace without commits prints nothing. Input that cannot be read is no
// trace: it gets a line on standard error, and nothing is printed.
#![tactic(auto)]

use store::Store;

// The lines of the first n rows.
fn print_rows(rt: &HostRuntime, rows: &[u64], n: usize) {
    let mut text = [0u8; table::LONGEST];
    let length = table::write(rows, n, &mut text);
    streams::write_whole(rt, &mut rt.stdout(), b"standard output", &text[..length]);
}

fn main(rt: HostRuntime) {
    // Room for one byte more than a file may have, so that a longer input is seen to be too long.
    let mut file = [0u8; Store::BYTES + 1];
    let Ok(n) = filters::read_file(&rt, &mut file) else {
        return;
    };
    let mut image = [0u8; Store::IMAGE];
    let mut rows = [0u64; Store::COMMITS];
    match seeing::report(&file[..n], &mut image, &mut rows) {
        Ok(judged) => print_rows(&rt, &rows, judged.commits),
        Err(refusal) => filters::print(&rt, Err(refusal)),
    }
}
