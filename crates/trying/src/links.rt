// The commits that have a link to a member of a set: every commit is tried, by every kind of link of the table of clauses.
ghost use Rattle.std.specs.Prelude.{◌≡◌, ◌⊎◌, ◌↔◌, ℕ, ◌+◌, ◌<◌, ◌≤◌, T};
ghost use Rattle.sets.specs.Set.{has, insert};
ghost use Rattle.store.specs.Limits.{max_keys, numbers};
ghost use Rattle.dependencies.specs.History.{StoredBelow, SO};
ghost use Rattle.growth.specs.Sessions.{UpTo, ReadUpTo};
ghost use Rattle.state.specs.Room.{VersionsRoom, KeysRoom, CommitsRoom};
ghost use Rattle.state.specs.Keeps.{IsSet};
ghost use Rattle.trying.specs.Recorded.{recorded};
ghost use Rattle.trying.specs.Tries.{LinksTo, LaterBy, StartsByWrite, StartsByRead, StartsAt, Starts, Precedes};

use crate::{Ends, Past, gather};
use state::{CommitNumber, Key, VersionNumber};

// Whether a later version of the key is by a member of the set.
fn later_by(versions: &[u64], keys: &[u64], k: Key, i: VersionNumber, set: u64) -> bool
    requires { (k.0 < max_keys) × (i.0 < numbers) × VersionsRoom versions.now × KeysRoom keys.now }
    ensures { T result ↔ LaterBy versions.now keys.now k.0 i.0 set }
{
    let key = k.0;
    let count = sets::size(keys[key]);
    for j in i.0 + 1..count {
        if sets::has(set, state::writer_of(versions[state::PER_KEY * key + j]).0) {
            return true;
        }
    }
    false
}

// Whether a WR or WW link of the commit starts at this version.
fn starts_by_write(
    a: CommitNumber,
    ends: Ends,
    versions: &[u64],
    keys: &[u64],
    k: Key,
    i: VersionNumber,
) -> bool
    requires { (a.0 < numbers) × (k.0 < max_keys) × (i.0 < numbers) × VersionsRoom versions.now × KeysRoom keys.now }
    ensures { T result ↔ StartsByWrite versions.now keys.now ends a.0 k.0 i.0 }
{
    let at = state::PER_KEY * k.0 + i.0;
    if state::writer_of(versions[at]).0 != a.0 {
        return false;
    }
    if versions[state::READERS + at] & ends.reader != 0 {
        return true;
    }
    later_by(versions, keys, k, i, ends.writer)
}

// Whether an RW link of the commit starts at this version: "unless the same".
fn starts_by_read(
    a: CommitNumber,
    ends: Ends,
    versions: &[u64],
    keys: &[u64],
    k: Key,
    i: VersionNumber,
) -> bool
    requires { (a.0 < numbers) × (k.0 < max_keys) × (i.0 < numbers) × VersionsRoom versions.now × KeysRoom keys.now }
    ensures { T result ↔ StartsByRead versions.now keys.now ends a.0 k.0 i.0 }
{
    let at = state::PER_KEY * k.0 + i.0;
    if !sets::has(versions[state::READERS + at], a.0) {
        return false;
    }
    let others = sets::without(ends.overwriter, sets::single(a.0));
    later_by(versions, keys, k, i, others)
}

// Whether a link of the commit starts at this version.
fn starts_at(
    a: CommitNumber,
    ends: Ends,
    versions: &[u64],
    keys: &[u64],
    k: Key,
    i: VersionNumber,
) -> bool
    requires { (a.0 < numbers) × (k.0 < max_keys) × (i.0 < numbers) × VersionsRoom versions.now × KeysRoom keys.now }
    ensures { T result ↔ StartsAt versions.now keys.now ends a.0 k.0 i.0 }
{
    if starts_by_write(a, ends, versions, keys, k, i) {
        return true;
    }
    starts_by_read(a, ends, versions, keys, k, i)
}

// Whether a link of the commit starts at some version.
fn starts(a: CommitNumber, ends: Ends, versions: &[u64], keys: &[u64], n: usize) -> bool
    requires { (a.0 < numbers) × (n ≤ max_keys) × VersionsRoom versions.now × KeysRoom keys.now }
    ensures { T result ↔ Starts versions.now keys.now ends n a.0 }
{
    for k in 0..n {
        for i in 0..sets::size(keys[k]) {
            if starts_at(a, ends, versions, keys, Key(k), VersionNumber(i)) {
                return true;
            }
        }
    }
    false
}

// Whether SO leads from commit a to the member b of the set; `stored` are the commits in the store.
fn precedes(a: CommitNumber, b: CommitNumber, set: u64, stored: u64, commits: &[u64]) -> bool
    requires { (a.0 < numbers) × (b.0 < numbers) × CommitsRoom commits.now }
    ensures { T result ↔ Precedes commits.now stored set a.0 b.0 }
{
    if !sets::has(set, b.0) {
        return false;
    }
    if !sets::has(stored, a.0) {
        return false;
    }
    if !sets::has(stored, b.0) {
        return false;
    }
    if a.0 == 0 {
        return false;
    }
    if b.0 == 0 {
        return false;
    }
    let from = a.0;
    let to = b.0;
    let x = commits[from];
    let y = commits[to];
    if x % 0x1_0000_0000 != y % 0x1_0000_0000 {
        return false;
    }
    x / 0x1_0000_0000 < y / 0x1_0000_0000
}

// Whether SO leads from the commit to a member of the set.
fn precedes_some(a: CommitNumber, set: u64, stored: u64, commits: &[u64]) -> bool
    requires { (a.0 < numbers) × CommitsRoom commits.now }
    ensures { T result ↔ ((b : ℕ) × Precedes commits.now stored set a.0 b) }
{
    for b in 0..store::Store::NUMBERS {
        if precedes(a, CommitNumber(b), set, stored, commits) {
            return true;
        }
    }
    false
}

// Whether the commit has a link to a member of the set for its kind.
fn links_to(
    a: CommitNumber,
    ends: Ends,
    stored: u64,
    versions: &[u64],
    keys: &[u64],
    commits: &[u64],
    n: usize,
) -> bool
    requires { (a.0 < numbers) × (n ≤ max_keys) × VersionsRoom versions.now × KeysRoom keys.now × CommitsRoom commits.now }
    ensures { T result ↔ (((b : ℕ) × Precedes commits.now stored ends.session a.0 b) ⊎ Starts versions.now keys.now ends n a.0) }
{
    if precedes_some(a, ends.session, stored, commits) {
        return true;
    }
    starts(a, ends, versions, keys, n)
}

// The set with the number in it, where it is to be.
fn put(set: u64, a: CommitNumber, yes: bool) -> u64
    requires { a.0 < numbers }
    ensures { (T yes → result ≡ insert a.0 set) × ((¬ T yes) → result ≡ set) }
{
    if yes { sets::insert(set, a.0) } else { set }
}

// The commits below `most` that have a link to a member of the set for its kind.
pub fn tries(
    ends: Ends,
    versions: &[u64],
    keys: &[u64],
    commits: &[u64],
    n: usize,
    most: usize,
) -> u64
    requires { (n ≤ max_keys) × (most ≤ numbers) × VersionsRoom versions.now × KeysRoom keys.now × CommitsRoom commits.now }
    ensures { IsSet result (λ a. (a < most) × LinksTo (recorded versions.now keys.now commits.now n) ends a) }
{
    let stored = gather::stored(versions, keys, n);
    let mut all = 0u64;
    for a in 0..most {
        let linked = links_to(CommitNumber(a), ends, stored, versions, keys, commits, n);
        all = put(all, CommitNumber(a), linked);
    }
    all
}

// The commits below `most` that precede one of the set in SO; and those from which one of the set, or a commit before it in SO, has read.
pub fn past(
    set: u64,
    versions: &[u64],
    keys: &[u64],
    commits: &[u64],
    n: usize,
    most: usize,
) -> Past
    requires { (n ≤ max_keys) × (most ≤ numbers) × VersionsRoom versions.now × KeysRoom keys.now × CommitsRoom commits.now }
    ensures { StoredBelow most (recorded versions.now keys.now commits.now n)
        → IsSet result.before (λ a. (t : ℕ) × T (has set t) × SO (recorded versions.now keys.now commits.now n) a t)
        × IsSet result.read (λ a. (t : ℕ) × T (has set t) × ReadUpTo (recorded versions.now keys.now commits.now n) a t) }
{
    let sessions = Ends {
        session: set,
        reader: 0,
        writer: 0,
        overwriter: 0,
    };
    let before = tries(sessions, versions, keys, commits, n, most);
    let readers = Ends {
        session: 0,
        reader: sets::union(set, before),
        writer: 0,
        overwriter: 0,
    };
    let read = tries(readers, versions, keys, commits, n, most);
    Past { before, read }
}

// The commit and those before it in SO.
pub fn up_to(versions: &[u64], keys: &[u64], commits: &[u64], n: usize, me: CommitNumber) -> u64
    requires { (n ≤ max_keys) × (me.0 < numbers) × VersionsRoom versions.now × KeysRoom keys.now × CommitsRoom commits.now }
    ensures { StoredBelow (me.0 + 1) (recorded versions.now keys.now commits.now n)
        → IsSet result (UpTo (recorded versions.now keys.now commits.now n) me.0) }
{
    let ends = Ends {
        session: sets::single(me.0),
        reader: 0,
        writer: 0,
        overwriter: 0,
    };
    sets::insert(tries(ends, versions, keys, commits, n, me.0), me.0)
}
