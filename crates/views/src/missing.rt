// The first version that a rule wants and a view lacks, by key and then version: each clause's search, made where a level fails.
ghost use Rattle.std.specs.Prelude.{◌≡◌, ℕ, ◌+◌, ◌<◌, ◌≤◌, Bool, List, length};
ghost use Rattle.store.specs.Limits.{max_keys, per_key};
ghost use Rattle.store.specs.Store.{View, Store, count, Commit};
ghost use Rattle.store.specs.Update.{update};
ghost use Rattle.store.specs.Missing.{Rule, missing};
ghost use Rattle.growth.specs.Made.{Made};
ghost use Rattle.state.specs.Room.{VersionsRoom, KeysRoom};
ghost use Rattle.state.specs.Keeps.{KeepsKeys, KeepsOperations};
ghost use Rattle.state.specs.Answers.{place_of};
ghost use Rattle.state.specs.Rows.{RowAt};
ghost use Rattle.views.specs.Rules.{StoreAndView, by_writer, by_reader, of_written};

use state::{Key, Place, VersionNumber};

// The first version that the rule wants and the view at `base` lacks.
fn least<F: Fn(Key, VersionNumber) -> bool>(
    keys: &[u64],
    masks: &[u64],
    base: usize,
    n: usize,
    wants: F,
) -> Option<Place>
    requires room { (n ≤ max_keys) × KeysRoom keys.now × (base + n ≤ length masks.now) }
    requires asked { (k : Key) (v : VersionNumber) → k.0 < n → v.0 < per_key → F.pre wants k v }
    ensures { (s : Store) (u : View) (want : Rule) → s.keys ≡ n → KeepsKeys s keys.now → RowAt n masks.now base u
        → ((k : Key) (v : VersionNumber) (b : Bool) → v.0 < count s k.0 → F.post wants k v b → b ≡ want k.0 v.0) → place_of result ≡ missing s want u }
{
    let mut found = None;
    'search: for k in 0..n {
        for v in sets::Members(sets::without(keys[k], masks[base + k])) {
            if wants(Key(k), VersionNumber(v)) {
                found = Some(Place {
                    key: Key(k),
                    version: VersionNumber(v),
                });
                break 'search;
            }
        }
    }
    found
}

// The first version by a commit of the set that the view at `base` lacks.
pub fn least_by_writer(
    versions: &[u64],
    keys: &[u64],
    masks: &[u64],
    base: usize,
    set: u64,
    n: usize,
) -> Option<Place>
    requires { (n ≤ max_keys) × VersionsRoom versions.now × KeysRoom keys.now × (base + n ≤ length masks.now) }
    ensures { (s : Store) (u : View) → StoreAndView s u n versions.now keys.now masks.now base → place_of result ≡ missing s (by_writer s set) u }
{
    least(keys, masks, base, n, |k, v| {
        sets::has(
            set,
            state::writer_of(versions[state::PER_KEY * k.0 + v.0]).0,
        )
    })
}

// The first version read by a commit of the set that the view at `base` lacks.
pub fn least_by_reader(
    versions: &[u64],
    keys: &[u64],
    masks: &[u64],
    base: usize,
    set: u64,
    n: usize,
) -> Option<Place>
    requires { (n ≤ max_keys) × VersionsRoom versions.now × KeysRoom keys.now × (base + n ≤ length masks.now) }
    ensures { (s : Store) (u : View) → StoreAndView s u n versions.now keys.now masks.now base → place_of result ≡ missing s (by_reader s set) u }
{
    least(keys, masks, base, n, |k, v| {
        set & versions[state::READERS + (state::PER_KEY * k.0 + v.0)] != 0
    })
}

// Clause 5: the first version of a key that the commit writes (rank 2 * k + 1) that the view at `base` lacks, in the store before the commit. The keys are
// those after it, where the mask of such a key has one version more: half of it is the mask before.
pub fn least_absent(keys: &[u64], masks: &[u64], base: usize, ranks: u64, n: usize) -> Option<Place>
    requires { (n ≤ max_keys) × KeysRoom keys.now × (base + n ≤ length masks.now) }
    ensures { (s : Store) (u : View) (c : Commit) (values : List ℕ) → Made s u c → s.keys ≡ n → KeepsKeys (update s u c) keys.now → KeepsOperations c ranks values → RowAt n masks.now base u → place_of result ≡ missing s (of_written ranks) u }
{
    for k in 0..n {
        if sets::has(ranks, 2 * k + 1) {
            let left = sets::without(keys[k] / 2, masks[base + k]);
            if left != 0 {
                return Some(Place {
                    key: Key(k),
                    version: VersionNumber(sets::lowest(left)),
                });
            }
        }
    }
    None
}
