// The commits of which new masks hold a version, found by difference from a view: code 11.
ghost use Rattle.std.specs.Prelude.{◌≡◌, ◌+◌, ◌<◌, ◌≤◌, length};
ghost use Rattle.std.proofs.Math.Option.{none};
ghost use Rattle.store.specs.Limits.{max_keys};
ghost use Rattle.store.specs.Store.{View, Store};
ghost use Rattle.store.specs.Refusal.{bad_mask};
ghost use Rattle.state.specs.Room.{VersionsRoom, KeysRoom, FreshRoom};
ghost use Rattle.state.specs.Keeps.{IsSet};
ghost use Rattle.views.specs.Writing.{WriterBelow};
ghost use Rattle.views.specs.Viewed.{ViewedAs, NewMasks};

use crate::{apart, missing, prefix};

// The commits that wrote something.
pub fn all_writers(keys: &[u64], n: usize) -> u64
    requires { (n ≤ max_keys) × KeysRoom keys.now }
    ensures { IsSet result (WriterBelow keys.now n) }
{
    let mut all = 0u64;
    for writers in &keys[state::WRITERS..state::WRITERS + n] {
        all = sets::union(all, *writers);
    }
    all
}

// Code 11, where code 10 is not due, and the commits of which the masks hold a version: by difference from the client's view at `base`, which holds all or nothing of a
// commit; so a commit of which the masks gained or lost a version is held in part exactly where they did not gain or lose all that it wrote. A common case is answered at
// once: all versions of each key up to some.
pub fn viewed(
    versions: &[u64],
    keys: &[u64],
    fresh: &[u64],
    views: &[u64],
    base: usize,
    seen: u64,
    n: usize,
) -> Result<u64, state::Place>
    requires { (1 ≤ n) × (n ≤ max_keys) × VersionsRoom versions.now × KeysRoom keys.now × FreshRoom fresh.now × (base + n ≤ length views.now) }
    ensures { (s : Store) (old u : View) → NewMasks s old u n versions.now keys.now views.now base seen fresh.now → bad_mask s u ≡ none → ViewedAs s u result }
{
    if prefix::prefixes(fresh, n) {
        let p = prefix::split(versions, keys, fresh, n);
        let held = p.held;
        if held & p.lacking == 0 {
            return Ok(held);
        }
    }
    let gained = apart::beyond(versions, fresh, 0, views, base, n);
    let lost = apart::beyond(versions, views, base, fresh, 0, n);
    let holds = sets::without(sets::union(seen, gained.all), lost.all);
    let half = sets::union(gained.half, lost.half);
    if half == 0 {
        return Ok(holds);
    }
    match missing::least_by_writer(versions, keys, fresh, 0, half, n) {
        Some(place) => Err(place),
        None => Ok(holds),
    }
}
