// Records of a trace file, written into a lent buffer (01, The trace file; 02, E6): the bytes that trace's specs/Encode.antt and, for the
// short edition, specs/Edition.antt say.
// The masks of a view come from a row of an array of words, the operations of a commit from a file that has them already.
#![tactic(auto)]

ghost use Rattle.std.specs.Prelude.{◌≡◌, true, ℕ, ◌+◌, ◌*◌, ◌^◌, ◌≤◌, ◌<◌, T, length};
ghost use Rattle.sets.specs.Set.{has, size};
ghost use Rattle.endian.specs.Endian.{put_at};
ghost use Rattle.store.specs.Limits.{max_keys, max_clients, min_bytes, max_bytes};
ghost use Rattle.store.specs.Store.{View, shift, commit};
ghost use Rattle.trace.specs.Listed.{listed_bytes};
ghost use Rattle.trace.specs.Format.{shift_length, commit_length, short_shift_length, short_commit_length, operations_at, operations_fit};
ghost use Rattle.trace.specs.Encode.{operations_bytes, view_bytes, event_bytes, file_head};
ghost use Rattle.trace.specs.Edition.{short_shift_bytes, short_commit_bytes};
ghost use Rattle.state.specs.Rows.{RowAt};
ghost use Rattle.writing.specs.Start.{start_bytes};

// The six bytes that a record of any kind begins with: "u16 length of the whole record, u16 kind", and the two bytes behind them.
fn put_start(buffer: &mut [u8], at: usize, size: usize, kind: u16, first: usize, second: usize)
    requires { (size < 65536) × (first < 256) × (second < 256) × (at + 6 ≤ length buffer.old) }
    ensures { buffer.new ≡ put_at buffer.old at (start_bytes size kind first second) }
{
    endian::put_u16(buffer, at, size as u16);
    endian::put_u16(buffer, at + 2, kind);
    endian::put_u16(buffer, at + 4, (first + 256 * second) as u16);
}

// "K view masks u64", from the row of `masks` that starts at `base`.
pub fn put_masks(buffer: &mut [u8], at: usize, masks: &[u64], base: usize, n: usize)
    requires { (base + n ≤ length masks.now) × (at + 8 * n ≤ length buffer.old) }
    ensures { (u : View) → RowAt n masks.now base u → buffer.new ≡ put_at buffer.old at (view_bytes n u) }
{
    for (k, mask) in masks[base..base + n].iter().enumerate() {
        endian::put_u64(buffer, at + 8 * k, *mask);
    }
}

// "those masks, rising too": of the keys in `listed`, from the row of `masks` that starts at `base`.
fn put_listed(buffer: &mut [u8], at: usize, masks: &[u64], base: usize, listed: u64)
    requires { (at + 8 * size listed ≤ length buffer.old) × ((n : ℕ) × ((k : ℕ) → T (has listed k) → k < n) × (base + n ≤ length masks.now)) }
    ensures { (n : ℕ) (u : View) → ((k : ℕ) → T (has listed k) → k < n) → RowAt n masks.now base u
        → buffer.new ≡ put_at buffer.old at (listed_bytes n (has listed) u) }
{
    let mut to = at;
    for k in sets::Members(listed) {
        endian::put_u64(buffer, to, masks[base + k]);
        to = to + 8;
    }
}

// The operations that stand in a file, "8 bytes" each, copied: written anew they would be the same bytes.
fn copy_operations(buffer: &mut [u8], at: usize, file: &[u8], from: usize, count: usize)
    requires { (from + 8 * count ≤ length file.now) × (at + 8 * count ≤ length buffer.old) × ((keys : ℕ) × (keys ≤ max_keys) × (operations_fit file.now from keys 0 count ≡ true)) }
    ensures { buffer.new ≡ put_at buffer.old at (operations_bytes (operations_at file.now from count)) }
{
    for i in 0..count {
        endian::put_u64(buffer, at + 8 * i, endian::u64_at(file, from + 8 * i));
    }
}

// The first 12 bytes of a file: its length, and the record of kind 1.
pub fn put_head(buffer: &mut [u8], whole: usize, keys: usize, clients: usize, records: usize)
    requires { (min_bytes ≤ length buffer.old) × (whole ≤ max_bytes) × (keys ≤ max_keys) × (clients ≤ max_clients) × (records < 65536) }
    ensures { buffer.new ≡ put_at buffer.old 0 (file_head whole keys clients records) }
{
    endian::put_u32(buffer, 0, whole as u32);
    put_start(buffer, 4, 8, 1, keys, clients);
    endian::put_u16(buffer, 10, records as u16);
}

// A view shift from `at` on, to the view whose masks are the row of `masks` from `base` on: where the next record starts.
pub fn put_shift(
    buffer: &mut [u8],
    at: usize,
    client: usize,
    masks: &[u64],
    base: usize,
    n: usize,
) -> usize
    requires { (n ≤ max_keys) × (client < max_clients) × (base + n ≤ length masks.now) × (at + shift_length n ≤ length buffer.old) }
    ensures value { result ≡ at + shift_length n }
    ensures buffer_after { (u : View) → RowAt n masks.now base u
        → buffer.new ≡ put_at buffer.old at (event_bytes n (shift client u)) }
{
    let size = 6 + 8 * n;
    put_start(buffer, at, size, 2, client, 0);
    put_masks(buffer, at + 6, masks, base, n);
    at + size
}

// A commit from `at` on, with the `count` operations that stand in a file at `operations` and the view after it in the row of `masks`
// from `base` on: where the next record starts.
pub fn put_commit(
    buffer: &mut [u8],
    at: usize,
    client: usize,
    session: u32,
    file: &[u8],
    operations: usize,
    count: usize,
    masks: &[u64],
    base: usize,
    n: usize,
) -> usize
    requires n_le_max_keys { (n ≤ max_keys) × (client < max_clients) × (base + n ≤ length masks.now) }
    requires count_in_bounds { (operations + 8 * count ≤ length file.now) × (operations_fit file.now operations n 0 count ≡ true) × (at + commit_length n count ≤ length buffer.old) }
    ensures value { result ≡ at + commit_length n count }
    ensures buffer_after { (u : View) → RowAt n masks.now base u
        → buffer.new ≡ put_at buffer.old at (event_bytes n (commit (record { client = client; session = session; operations = operations_at file.now operations count; view_after = u }))) }
{
    let view = 10 + 8 * count;
    let size = view + 8 * n;
    put_start(buffer, at, size, 3, client, count);
    endian::put_u32(buffer, at + 6, session);
    copy_operations(buffer, at + 10, file, operations, count);
    put_masks(buffer, at + view, masks, base, n);
    at + size
}

// A view shift of the short edition from `at` on, which lists the keys in `listed` of the view whose masks are the row of `masks` from `base` on:
// where the next record starts.
pub fn put_short_shift(
    buffer: &mut [u8],
    at: usize,
    client: usize,
    listed: u64,
    masks: &[u64],
    base: usize,
    n: usize,
) -> usize
    requires { (n ≤ max_keys) × (client < max_clients) × (base + n ≤ length masks.now) × (listed < 2 ^ n) × (at + short_shift_length listed ≤ length buffer.old) }
    ensures value { result ≡ at + short_shift_length listed }
    ensures buffer_after { (u : View) → RowAt n masks.now base u
        → buffer.new ≡ put_at buffer.old at (short_shift_bytes n client listed u) }
{
    let size = 10 + 8 * sets::size(listed);
    put_start(buffer, at, size, 6, client, 0);
    endian::put_u32(buffer, at + 6, listed as u32);
    put_listed(buffer, at + 10, masks, base, listed);
    at + size
}

// A commit of the short edition from `at` on, with the `count` operations that stand in a file at `operations`; of the view after it, in the row
// of `masks` from `base` on, it lists the keys with an operation. Answers where the next record starts.
pub fn put_short_commit(
    buffer: &mut [u8],
    at: usize,
    client: usize,
    session: u32,
    file: &[u8],
    operations: usize,
    count: usize,
    masks: &[u64],
    base: usize,
    n: usize,
) -> usize
    requires n_le_max_keys { (n ≤ max_keys) × (client < max_clients) × (base + n ≤ length masks.now) }
    requires count_in_bounds { (operations + 8 * count ≤ length file.now) × (operations_fit file.now operations n 0 count ≡ true)
        × (at + short_commit_length count (operations_at file.now operations count) ≤ length buffer.old) }
    ensures value { result ≡ at + short_commit_length count (operations_at file.now operations count) }
    ensures buffer_after { (u : View) → RowAt n masks.now base u
        → buffer.new ≡ put_at buffer.old at (short_commit_bytes n (record { client = client; session = session; operations = operations_at file.now operations count; view_after = u })) }
{
    let listed = trace::contents::touched_keys(file, operations, count);
    let view = 10 + 8 * count;
    let size = view + 8 * sets::size(listed);
    put_start(buffer, at, size, 5, client, count);
    endian::put_u32(buffer, at + 6, session);
    copy_operations(buffer, at + 10, file, operations, count);
    put_listed(buffer, at + view, masks, base, listed);
    at + size
}
