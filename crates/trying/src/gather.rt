// Sets of commits by their versions: every version of every key is looked at.
ghost use Rattle.std.specs.Prelude.{◌+◌, ◌<◌, ◌≤◌, T, length};
ghost use Rattle.sets.specs.Set.{has, below, width};
ghost use Rattle.store.specs.Limits.{max_keys, per_key};
ghost use Rattle.state.specs.Room.{VersionsRoom, KeysRoom};
ghost use Rattle.state.specs.Keeps.{IsSet};
ghost use Rattle.trying.specs.Recorded.{StoredIn, HeldIn, WroteOne};
ghost use Rattle.trying.specs.Tries.{ChosenAt, Chosen};

use state::{Key, VersionNumber};

// Every number that a set can hold.
const EVERY: u64 = 0xffff_ffff_ffff_ffff;

// What one version gives, where the masks at `base` hold it and the ranks have a write of its key: its writer, and its readers in `readers`.
fn chosen_at(
    versions: &[u64],
    masks: &[u64],
    base: usize,
    ranks: u64,
    readers: u64,
    k: Key,
    i: VersionNumber,
) -> u64
    requires { (k.0 < max_keys) × (i.0 < per_key) × VersionsRoom versions.now × (base + k.0 < length masks.now) }
    ensures { IsSet result (ChosenAt versions.now masks.now base ranks readers k.0 i.0) }
{
    if !sets::has(masks[base + k.0], i.0) {
        return 0;
    }
    if !sets::has(ranks, 2 * k.0 + 1) {
        return 0;
    }
    let at = state::PER_KEY * k.0 + i.0;
    sets::insert(
        versions[state::READERS + at] & readers,
        state::writer_of(versions[at]).0,
    )
}

// What all versions give.
fn chosen(
    versions: &[u64],
    keys: &[u64],
    masks: &[u64],
    base: usize,
    ranks: u64,
    readers: u64,
    n: usize,
) -> u64
    requires { (n ≤ max_keys) × VersionsRoom versions.now × KeysRoom keys.now × (base + n ≤ length masks.now) }
    ensures { IsSet result (Chosen versions.now keys.now masks.now base ranks readers n) }
{
    let mut all = 0u64;
    for k in 0..n {
        for i in 0..sets::size(keys[k]) {
            let here = chosen_at(
                versions,
                masks,
                base,
                ranks,
                readers,
                Key(k),
                VersionNumber(i),
            );
            all = sets::union(all, here);
        }
    }
    all
}

// The commits of which the view at `base` holds a version.
pub fn held(versions: &[u64], keys: &[u64], masks: &[u64], base: usize, n: usize) -> u64
    requires { (n ≤ max_keys) × VersionsRoom versions.now × KeysRoom keys.now × (base + n ≤ length masks.now) }
    ensures { IsSet result (HeldIn versions.now keys.now masks.now base n) }
{
    chosen(versions, keys, masks, base, EVERY, 0, n)
}

// The commits that wrote a version of a key that has a write among the ranks.
pub fn writers(versions: &[u64], keys: &[u64], ranks: u64, n: usize) -> u64
    requires { (n ≤ max_keys) × VersionsRoom versions.now × KeysRoom keys.now }
    ensures { IsSet result (WroteOne versions.now keys.now ranks n) }
{
    let masks = [EVERY; store::Store::KEYS];
    chosen(versions, keys, &masks, 0, ranks, 0, n)
}

// The commits that wrote something and are not among those of the set.
pub fn lacking(versions: &[u64], keys: &[u64], seen: u64, n: usize) -> u64
    requires { (n ≤ max_keys) × VersionsRoom versions.now × KeysRoom keys.now }
    ensures { IsSet result (λ t. WroteOne versions.now keys.now (below width) n t × (¬ T (has seen t))) }
{
    sets::without(writers(versions, keys, EVERY, n), seen)
}

// The commits in the store.
pub fn stored(versions: &[u64], keys: &[u64], n: usize) -> u64
    requires { (n ≤ max_keys) × VersionsRoom versions.now × KeysRoom keys.now }
    ensures { IsSet result (StoredIn versions.now keys.now n) }
{
    let masks = [EVERY; store::Store::KEYS];
    chosen(versions, keys, &masks, 0, EVERY, EVERY, n)
}
