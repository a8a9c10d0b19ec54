// A record of the file, written in either edition: how long it is, and its bytes. The view that it means is in `fresh`, that of its client before it
// in the row of `views` from `base` on.
ghost use Rattle.std.specs.Prelude.{◌≡◌, List, ℕ, ◌+◌, ◌≤◌, length};
ghost use Rattle.endian.specs.Endian.{put_at};
ghost use Rattle.store.specs.Limits.{max_keys};
ghost use Rattle.store.specs.Store.{Configuration};
ghost use Rattle.trace.specs.Entry.{event};
ghost use Rattle.trace.specs.Meaning.{entry_of};
ghost use Rattle.trace.specs.Edition as Editions;
ghost use Rattle.trace.specs.Edition.{record_bytes};
ghost use Rattle.state.specs.Room.{FreshRoom};
ghost use Rattle.converting.specs.Answers.{edition_of};
ghost use Rattle.converting.specs.Parts.{PartsFit, Meant, longest_record};

use crate::{Edition, view};
use trace::records::Record;

// How long it is as a kind 2 or 3.
fn long_length(x: Record, n: usize) -> usize
    requires { (n ≤ max_keys) × ((file : List ℕ) × PartsFit file n x) }
    ensures few { result ≤ longest_record }
    ensures reckoned { (file : List ℕ) (g : Configuration) → result ≡ length (record_bytes Editions.long n g (event g (entry_of file n x))) }
{
    match x {
        Record::Shift {
            client: _,
            listing: _,
        } => 6 + 8 * n,
        Record::Commit {
            client: _,
            count,
            session: _,
            operations: _,
            listing: _,
        } => 10 + 8 * count + 8 * n,
    }
}

// And as a kind 6 or 5.
fn short_length(
    file: &[u8],
    x: Record,
    views: &[u64],
    base: usize,
    fresh: &[u64],
    n: usize,
) -> usize
    requires { (n ≤ max_keys) × PartsFit file.now n x × (base + n ≤ length views.now) × FreshRoom fresh.now }
    ensures few { result ≤ longest_record }
    ensures reckoned { (g : Configuration) → Meant g file.now n x views.now base fresh.now
        → result ≡ length (record_bytes Editions.short n g (event g (entry_of file.now n x))) }
{
    match x {
        Record::Shift {
            client: _,
            listing: _,
        } => 10 + 8 * sets::size(view::differing(views, base, fresh, n)),
        Record::Commit {
            client: _,
            count,
            session: _,
            operations,
            listing: _,
        } => 10 + 8 * count + 8 * trace::records::keys_in(file, operations, count),
    }
}

// How long it is in an edition.
pub fn length_in(
    edition: Edition,
    file: &[u8],
    x: Record,
    views: &[u64],
    base: usize,
    fresh: &[u64],
    n: usize,
) -> usize
    requires { (n ≤ max_keys) × PartsFit file.now n x × (base + n ≤ length views.now) × FreshRoom fresh.now }
    ensures few { result ≤ longest_record }
    ensures reckoned { (g : Configuration) → Meant g file.now n x views.now base fresh.now
        → result ≡ length (record_bytes (edition_of edition) n g (event g (entry_of file.now n x))) }
{
    match edition {
        Edition::Long => long_length(x, n),
        Edition::Short => short_length(file, x, views, base, fresh, n),
    }
}

// Its bytes as a kind 2 or 3, from `at` on: where the next record starts.
fn put_long(file: &[u8], x: Record, buffer: &mut [u8], at: usize, fresh: &[u64], n: usize) -> usize
    requires n_le_max_keys { (n ≤ max_keys) × PartsFit file.now n x × FreshRoom fresh.now }
    requires x_in_bounds { (g : Configuration) × (at + length (record_bytes Editions.long n g (event g (entry_of file.now n x))) ≤ length buffer.old) }
    ensures next { (g : Configuration) → result ≡ at + length (record_bytes Editions.long n g (event g (entry_of file.now n x))) }
    ensures put { (g : Configuration) (views : List ℕ) (base : ℕ) → Meant g file.now n x views base fresh.now
        → buffer.new ≡ put_at buffer.old at (record_bytes Editions.long n g (event g (entry_of file.now n x))) }
{
    match x {
        Record::Shift { client, listing: _ } => {
            writing::put_shift(buffer, at, client, fresh, 0, n)
        }
        Record::Commit {
            client,
            count,
            session,
            operations,
            listing: _,
        } => writing::put_commit(
            buffer, at, client, session, file, operations, count, fresh, 0, n,
        ),
    }
}

// And as a kind 6 or 5.
fn put_short(
    file: &[u8],
    x: Record,
    buffer: &mut [u8],
    at: usize,
    views: &[u64],
    base: usize,
    fresh: &[u64],
    n: usize,
) -> usize
    requires n_le_max_keys { (n ≤ max_keys) × PartsFit file.now n x × (base + n ≤ length views.now) × FreshRoom fresh.now }
    requires meant { (g : Configuration) × Meant g file.now n x views.now base fresh.now
        × (at + length (record_bytes Editions.short n g (event g (entry_of file.now n x))) ≤ length buffer.old) }
    ensures next { (g : Configuration) → Meant g file.now n x views.now base fresh.now
        → result ≡ at + length (record_bytes Editions.short n g (event g (entry_of file.now n x))) }
    ensures put { (g : Configuration) → Meant g file.now n x views.now base fresh.now
        → buffer.new ≡ put_at buffer.old at (record_bytes Editions.short n g (event g (entry_of file.now n x))) }
{
    match x {
        Record::Shift { client, listing: _ } => {
            let listed = view::differing(views, base, fresh, n);
            writing::put_short_shift(buffer, at, client, listed, fresh, 0, n)
        }
        Record::Commit {
            client,
            count,
            session,
            operations,
            listing: _,
        } => writing::put_short_commit(
            buffer, at, client, session, file, operations, count, fresh, 0, n,
        ),
    }
}

// Its bytes in an edition, from `at` on: where the next record starts.
pub fn put_in(
    edition: Edition,
    file: &[u8],
    x: Record,
    buffer: &mut [u8],
    at: usize,
    views: &[u64],
    base: usize,
    fresh: &[u64],
    n: usize,
) -> usize
    requires n_le_max_keys { (n ≤ max_keys) × PartsFit file.now n x × (base + n ≤ length views.now) × FreshRoom fresh.now }
    requires meant { (g : Configuration) × Meant g file.now n x views.now base fresh.now
        × (at + length (record_bytes (edition_of edition) n g (event g (entry_of file.now n x))) ≤ length buffer.old) }
    ensures next { (g : Configuration) → Meant g file.now n x views.now base fresh.now
        → result ≡ at + length (record_bytes (edition_of edition) n g (event g (entry_of file.now n x))) }
    ensures put { (g : Configuration) → Meant g file.now n x views.now base fresh.now
        → buffer.new ≡ put_at buffer.old at (record_bytes (edition_of edition) n g (event g (entry_of file.now n x))) }
{
    match edition {
        Edition::Long => put_long(file, x, buffer, at, fresh, n),
        Edition::Short => put_short(file, x, buffer, at, views, base, fresh, n),
    }
}
