// Rows of visibility as text, each in decimal on its own line. The text stands in specs/Table.antt.
#![tactic(auto)]

ghost use Rattle.std.specs.Prelude.{◌*◌, ◌≤◌, length, take};
ghost use Rattle.store.specs.Limits.{max_commits};
ghost use Rattle.text.specs.Put.{Put};
ghost use Rattle.table.specs.Table.{table_text, longest_row, longest_table, table_in};

// Every table has room in a buffer of so many bytes.
pub const LONGEST: usize = 1323;

// The first n rows, a line for each.
fn put_rows(out: &mut [u8], rows: &[u64], n: usize) -> usize
    requires { (n ≤ length rows.now) × (n ≤ max_commits) × (longest_table ≤ length out.old) }
    ensures put { Put out.old 0 (table_text (take n rows.now)) out.new result }
    ensures upper_bound { result ≤ longest_row * n }
{
    let mut to: usize = 0;
    for row in &rows[..n] {
        let digits = text::put_field(out, to, b"", *row);
        to = text::put_bytes(out, digits, b"\n");
    }
    to
}

// Writes the first n rows at the start of `out` and answers the length of the text. Where `out` is shorter than the longest table, `rows` has fewer rows, or
// there are more than a trace has commits, nothing is written, and 0 is answered.
pub fn write(rows: &[u64], n: usize, out: &mut [u8]) -> usize
    ensures text { Put out.old 0 (table_in (length out.old) rows.now n) out.new result }
    ensures longest { result ≤ longest_table }
{
    if out.len() < LONGEST {
        return 0;
    }
    if rows.len() < n {
        return 0;
    }
    if n > store::Store::COMMITS {
        return 0;
    }
    put_rows(out, rows, n)
}
