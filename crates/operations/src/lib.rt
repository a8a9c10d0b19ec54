// What the operations of a commit say of the arrays, and do to them. A commit reads the newest version that its client's view holds of a key,
// and appends the versions that it writes; both are from before the commit, so a read never sees a write of its own commit.
// The arrays are described in crates/state/specs. `ranks` holds twice the key for each read, and one more for each write.
#![tactic(auto)]

ghost use Rattle.std.specs.Prelude.{◌≡◌, ◌+◌, ◌*◌, ◌^◌, ◌<◌, ◌≤◌, bit_or};
ghost use Rattle.store.specs.Limits.{max_keys, numbers, per_key};
ghost use Rattle.store.specs.Store.{View, Store, Commit};
ghost use Rattle.state.specs.Places.{head_place, readers_place, owned_place, views_length};
ghost use Rattle.growth.specs.Links.{FromWrite};
ghost use Rattle.state.specs.Room.{VersionsRoom, KeysRoom, ViewsRoom, ValuesRoom};
ghost use Rattle.state.specs.Keeps.{IsSet, KeepsVersions, KeepsKeys};
ghost use Rattle.operations.specs.Given.{Given, Appending};
ghost use Rattle.operations.specs.Change.{free_bit, free, reader_added, version_added, version_owned, key_grown, writes_appended};
ghost use Rattle.operations.specs.Answers.{ReadsSay, LinkedSays};

use state::{CommitNumber, Key, VersionNumber, WrongRead};

// The two accesses, by their place in a rank.
const READ: usize = 0;

const WRITE: usize = 1;

// The reader `me` added to a version of key k.
fn note_read(versions: &mut [u64], k: Key, version: VersionNumber, me: CommitNumber)
    requires { VersionsRoom versions.old × (k.0 < max_keys) × (version.0 < per_key) × (me.0 < numbers) }
    ensures { versions.new ≡ reader_added versions.old (readers_place k.0 version.0) me.0 }
{
    let at = state::READERS + (state::PER_KEY * k.0 + version.0);
    versions[at] = sets::insert(versions[at], me.0);
}

// What the reads of a commit come to: the writers of the versions that it reads, and those of later versions of the same keys.
#[derive(Clone, Copy)]
pub struct Sources {
    pub from: u64,
    pub over: u64,
}

// "Reads add the commit to that version's readers." Answers whose versions are read, and who wrote later ones: as writers rise with the
// version number, these are the writers of the key that are above the writer of the version that is read. It stops at the least key that is read with another
// value than that of the newest version in the view (code 13).
pub fn note_reads(
    versions: &mut [u64],
    keys: &[u64],
    views: &[u64],
    base: usize,
    values: &[u64],
    ranks: u64,
    n: usize,
    me: CommitNumber,
) -> Result<Sources, WrongRead>
    requires { VersionsRoom versions.old × KeysRoom keys.now × ViewsRoom views.now × ValuesRoom values.now
        × (base + n ≤ views_length) × (n ≤ max_keys) × (me.0 < numbers) }
    ensures { (s : Store) (u : View) (c : Commit)
        → Given s u c versions.old views.now base values.now ranks n
        → ReadsSay s u c me.0 versions.new keys.now result }
{
    let mut from: u64 = 0;
    let mut over: u64 = 0;
    for twice in sets::Members(state::keys_with(ranks, READ, n)) {
        let k = twice / 2;
        let sees = state::newest_visible(versions, views[base + k], Key(k));
        if values[2 * k] != sees.value {
            return Err(WrongRead { key: Key(k), sees });
        }
        let version = sees.version;
        let writer = sees.writer;
        from = sets::union(from, sets::single(writer.0));
        let later = sets::without(keys[state::WRITERS + k], sets::up_to(writer.0));
        over = sets::union(over, later);
        note_read(versions, Key(k), version, me);
    }
    Ok(Sources { from, over })
}

// The head of a version: its value, and its writer above it.
fn head_of(value: u64, me: CommitNumber) -> u64
    requires { me.0 < numbers }
    ensures { result ≡ bit_or value (me.0 * 2 ^ 32) }
{
    value | ((me.0 as u64) << 32)
}

// A version put at its place, with no readers.
fn put_version(versions: &mut [u64], at: usize, head: u64)
    requires { VersionsRoom versions.old × (at < per_key * max_keys) }
    ensures { versions.new ≡ version_added versions.old at head }
{
    versions[at] = head;
    versions[state::READERS + at] = 0;
}

// The new version's bit added to what `me` wrote of key k.
fn own_version(versions: &mut [u64], k: Key, bit: u64, me: CommitNumber)
    requires { VersionsRoom versions.old × (k.0 < max_keys) × (me.0 < numbers) }
    ensures { versions.new ≡ version_owned versions.old (owned_place me.0 k.0) bit }
{
    let at = state::OWNED + (state::PER_COMMIT * me.0 + k.0);
    versions[at] = sets::union(versions[at], bit);
}

// The new version's bit added to the full mask of key k, and `me` to its writers.
fn grow_key(keys: &mut [u64], k: Key, bit: u64, me: CommitNumber)
    requires { KeysRoom keys.old × (k.0 < max_keys) × (me.0 < numbers) }
    ensures { keys.new ≡ key_grown keys.old k.0 bit me.0 }
{
    let i = k.0;
    let full = sets::union(keys[i], bit);
    let writers = sets::insert(keys[state::WRITERS + i], me.0);
    keys[i] = full;
    keys[state::WRITERS + i] = writers;
}

// A version by `me` appended to key k. The bit of the new version is one more than the mask of all before it; the sum wraps only where
// there are as many as a key can have, which is so in no store with room for a commit.
fn append_at(versions: &mut [u64], keys: &mut [u64], value: u64, k: Key, me: CommitNumber)
    requires { VersionsRoom versions.old × KeysRoom keys.old × (k.0 < max_keys) × (me.0 < numbers) }
    ensures { (versions.new ≡ version_owned (version_added versions.old (head_place k.0 (free keys.old k.0)) (bit_or value (me.0 * 2 ^ 32))) (owned_place me.0 k.0) (free_bit keys.old k.0))
        × (keys.new ≡ key_grown keys.old k.0 (free_bit keys.old k.0) me.0) }
{
    let i = k.0;
    let bit = std::num::wrapping_add_u64(keys[i], 1);
    let at = state::PER_KEY * i + state::newest(bit).0;
    put_version(versions, at, head_of(value, me));
    own_version(versions, k, bit, me);
    grow_key(keys, k, bit, me);
}

// "Writes append (value, commit, no readers)." Answers the writers of the keys before.
pub fn append(
    versions: &mut [u64],
    keys: &mut [u64],
    values: &[u64],
    ranks: u64,
    n: usize,
    me: CommitNumber,
) -> u64
    requires { VersionsRoom versions.old × KeysRoom keys.old × ValuesRoom values.now × (n ≤ max_keys) × (me.0 < numbers) }
    ensures { (s : Store) (c : Commit) → Appending s c versions.old keys.old values.now ranks n
        → KeepsVersions (writes_appended s c me.0) versions.new × KeepsKeys (writes_appended s c me.0) keys.new × IsSet result (FromWrite s c) }
{
    let mut earlier: u64 = 0;
    for twice in sets::Members(state::keys_with(ranks, WRITE, n)) {
        let k = twice / 2;
        earlier = sets::union(earlier, keys[state::WRITERS + k]);
        append_at(versions, keys, values[2 * k + 1], Key(k), me);
    }
    earlier
}

// The commits from which links lead to the commit that is made, by WR and WW, and those to which RW leads from it.
#[derive(Clone, Copy)]
pub struct Links {
    pub from: u64,
    pub earlier: u64,
    pub over: u64,
}

// All operations of commit `me`, made on the view in the row at `base`: the reads first, which see what was there before. Where one is wrong (code 13), nothing
// is written.
pub fn perform(
    versions: &mut [u64],
    keys: &mut [u64],
    views: &[u64],
    base: usize,
    values: &[u64],
    ranks: u64,
    n: usize,
    me: CommitNumber,
) -> Result<Links, WrongRead>
    requires { VersionsRoom versions.old × KeysRoom keys.old × ViewsRoom views.now × ValuesRoom values.now
        × (base + n ≤ views_length) × (n ≤ max_keys) × (me.0 < numbers) }
    ensures { (s : Store) (u : View) (c : Commit)
        → Given s u c versions.old views.now base values.now ranks n → KeepsKeys s keys.old
        → LinkedSays s u c me.0 versions.new keys.new result }
{
    let read = note_reads(versions, keys, views, base, values, ranks, n, me)?;
    let earlier = append(versions, keys, values, ranks, n, me);
    Ok(Links {
        from: read.from,
        earlier,
        over: read.over,
    })
}
