// The records of the replay, made from those of a file in form. The old shifts are left out; a commit gets a shift of its client to the full view before it, and is
// written with its own operations and the full view after.
ghost use Rattle.std.specs.Prelude.{◌≡◌, ◌+◌, ◌≤◌, ◌<◌, length};
ghost use Rattle.endian.specs.Endian.{put_at};
ghost use Rattle.store.specs.Limits.{max_keys, max_clients, max_commits, min_bytes, max_replay};
ghost use Rattle.store.specs.Store.{View, Configuration, commit};
ghost use Rattle.trace.specs.Result.{taken};
ghost use Rattle.trace.specs.Entry.{event};
ghost use Rattle.trace.specs.Format.{Trace, operations_at, shift_length, commit_length, decode};
ghost use Rattle.trace.specs.Encode.{events_bytes};
ghost use Rattle.trace.specs.Meaning.{entry_of, OperationsFit, WholeFile};
ghost use Rattle.answer.specs.Replay.{replay_trace, replay};
ghost use Rattle.state.specs.Room.{FreshRoom, ValuesRoom};
ghost use Rattle.run.specs.OneRecord.{Readable};
ghost use Rattle.replaying.specs.Full.{Full, Wrote, replay_length};

use crate::view;
use store::Store;
use trace::form::Header;
use trace::records::Record;

// How many bytes the replay has for a record.
fn length_for(x: Record, n: usize) -> usize
    requires { (n ≤ max_keys) × (replay_length n x ≤ max_replay) }
    ensures { result ≡ replay_length n x }
{
    match x {
        Record::Shift {
            client: _,
            listing: _,
        } => 0,
        Record::Commit {
            client: _,
            count,
            session: _,
            operations: _,
            listing: _,
        } => 6 + 8 * n + (10 + 8 * count + 8 * n),
    }
}

// How many bytes the file of the replay has.
pub fn size(file: &[u8], h: Header) -> usize
    requires { WholeFile file.now h }
    ensures { ((t : Trace) → decode file.now ≡ taken t → result ≡ length (replay t)) × (result ≤ max_replay) }
{
    let mut sum = Store::HEADER;
    let mut at = Store::HEADER;
    for _ in 0..h.records {
        let known = trace::records::known_at(file, at, h.keys);
        let record = known.record;
        sum = sum + length_for(record, h.keys);
        at = known.next;
    }
    sum
}

// What the replay has for a commit, from `at` on: where the next record starts. The masks in `full` are those of the full view before it, and become
// those of the one after.
fn write_commit(
    file: &[u8],
    buffer: &mut [u8],
    at: usize,
    client: usize,
    count: usize,
    session: u32,
    operations: usize,
    full: &mut [u64],
    values: &mut [u64],
    n: usize,
) -> usize
    requires n_le_max_keys { (n ≤ max_keys) × FreshRoom full.old × ValuesRoom values.old × (client < max_clients) × (at + (shift_length n + commit_length n count) ≤ length buffer.old) }
    requires operations_fit { OperationsFit file.now n operations count }
    requires commits_lt_max_commits { (r : Configuration) × (r.store.commits < max_commits) × Full r.store n full.old }
    ensures value { result ≡ at + (shift_length n + commit_length n count) }
    ensures wrote { (r : Configuration) (u : View) → Full r.store n full.old
        → Wrote n r (commit (record { client = client; session = session; operations = operations_at file.now operations count; view_after = u }))
        at buffer.old buffer.new full.new }
{
    let next = writing::put_shift(buffer, at, client, full, 0, n);
    let ranks = trace::contents::sort_operations(file, operations, n, count, values);
    view::grow(full, ranks, n);
    writing::put_commit(
        buffer, next, client, session, file, operations, count, full, 0, n,
    )
}

// What the replay has for a record, from `at` on: where the next one starts.
fn write_one(
    file: &[u8],
    x: Record,
    buffer: &mut [u8],
    at: usize,
    full: &mut [u64],
    values: &mut [u64],
    n: usize,
) -> usize
    requires n_le_max_keys { (n ≤ max_keys) × FreshRoom full.old × ValuesRoom values.old × (at + replay_length n x ≤ length buffer.old) }
    requires readable { (r : Configuration) × Readable file.now n r.store.commits x × Full r.store n full.old }
    ensures value { result ≡ at + replay_length n x }
    ensures wrote { (g r : Configuration) → Full r.store n full.old
        → Wrote n r (event g (entry_of file.now n x)) at buffer.old buffer.new full.new }
{
    match x {
        Record::Shift {
            client: _,
            listing: _,
        } => at,
        Record::Commit {
            client,
            count,
            session,
            operations,
            listing: _,
        } => write_commit(
            file, buffer, at, client, count, session, operations, full, values, n,
        ),
    }
}

// The records of the replay, behind the first bytes of its file.
pub fn write(file: &[u8], buffer: &mut [u8], h: Header)
    requires { WholeFile file.now h × ((t : Trace) → decode file.now ≡ taken t → length (replay t) ≤ length buffer.old) }
    ensures { (t : Trace) → decode file.now ≡ taken t
        → buffer.new ≡ put_at buffer.old min_bytes (events_bytes t.keys (replay_trace t).events) }
{
    let mut full = [1u64; state::FRESH];
    let mut values = [0u64; state::VALUES];
    let mut to = Store::HEADER;
    let mut at = Store::HEADER;
    for _ in 0..h.records {
        let known = trace::records::known_at(file, at, h.keys);
        let record = known.record;
        to = write_one(file, record, buffer, to, &mut full, &mut values, h.keys);
        at = known.next;
    }
}
