// An order or a ring as a line of text: `order 1 2`, `ring 3 1`. The line stands in specs/Line.antt.
#![tactic(auto)]

ghost use Rattle.std.specs.Prelude.{◌+◌, ◌*◌, ◌≤◌, [], ◌∷◌, ◌++◌, length, take};
ghost use Rattle.store.specs.Limits.{max_commits};
ghost use Rattle.text.specs.Ascii.{line_feed};
ghost use Rattle.text.specs.Put.{Put};
ghost use Rattle.listing.specs.Line.{numbers_text, longest_word, longest_number, longest_line, line_in, line_for};

use placing::Shown;

// Every line has room in a buffer of so many bytes.
pub const LONGEST: usize = 1329;

// The first n numbers, a space before each, from `at` on.
fn put_numbers(out: &mut [u8], at: usize, commits: &[u8], n: usize) -> usize
    requires { (n ≤ length commits.now) × (n ≤ max_commits) × (at + longest_number * n ≤ length out.old) }
    ensures put { Put out.old at (numbers_text (take n commits.now)) out.new result }
    ensures upper_bound { result ≤ at + longest_number * n }
{
    let mut to = at;
    for commit in &commits[..n] {
        to = text::put_field(out, to, b" ", *commit as u64);
    }
    to
}

// A word and the first n numbers, as a line.
fn put_line(out: &mut [u8], word: &[u8], commits: &[u8], n: usize) -> usize
    requires { (length word.now ≤ longest_word) × (n ≤ length commits.now) × (n ≤ max_commits) × (longest_line ≤ length out.old) }
    ensures put { Put out.old 0 (word.now ++ (numbers_text (take n commits.now) ++ (line_feed ∷ []))) out.new result }
    ensures upper_bound { result ≤ longest_line }
{
    let named = text::put_bytes(out, 0, word);
    let listed = put_numbers(out, named, commits, n);
    text::put_bytes(out, listed, b"\n")
}

// The same where it fits, and else nothing.
fn put_fitting(out: &mut [u8], word: &[u8], commits: &[u8], n: usize) -> usize
    requires { length word.now ≤ longest_word }
    ensures put { Put out.old 0 (line_in (length out.old) word.now commits.now n) out.new result }
    ensures upper_bound { result ≤ longest_line }
{
    if out.len() < LONGEST {
        return 0;
    }
    if commits.len() < n {
        return 0;
    }
    if n > store::Store::COMMITS {
        return 0;
    }
    put_line(out, word, commits, n)
}

// Writes the line of what is shown at the start of `out` and answers its length; its commits are the first bytes of `commits`. Where `out` is shorter than
// the longest line, `commits` has fewer bytes, or there are more commits than an image has, nothing is written, and 0 is answered.
pub fn write(shown: Shown, commits: &[u8], out: &mut [u8]) -> usize
    ensures text { Put out.old 0 (line_for (length out.old) shown commits.now) out.new result }
    ensures longest { result ≤ longest_line }
{
    match shown {
        Shown::Order(n) => put_fitting(out, b"order", commits, n),
        Shown::Ring(n) => put_fitting(out, b"ring", commits, n),
    }
}
