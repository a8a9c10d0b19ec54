// Judges the image on standard input (02, E9) and prints one line: `order` and the numbers of its commits, in an order that gives the image; or `ring` and those
// of a ring of links; or a refusal. Input that cannot be read is no image: it gets a line on standard error, and nothing is printed.
#![tactic(auto)]

use placing::Shown;
use store::Store;

// The line of an order or a ring.
fn print_shown(rt: &HostRuntime, shown: Shown, commits: &[u8]) {
    let mut text = [0u8; listing::LONGEST];
    let length = listing::write(shown, commits, &mut text);
    streams::write_whole(rt, &mut rt.stdout(), b"standard output", &text[..length]);
}

fn main(rt: HostRuntime) {
    // Room for one byte more than an image may have, so that a longer input is seen to be too long.
    let mut image = [0u8; Store::IMAGE + 1];
    let Ok(n) = filters::read_file(&rt, &mut image) else {
        return;
    };
    let mut commits = [0u8; Store::COMMITS];
    match arranging::judge_image(&image[..n], &mut commits) {
        Ok(shown) => print_shown(&rt, shown, &commits),
        Err(refusal) => filters::print(&rt, Err(refusal)),
    }
}
