// Masks that hold, of each key, all versions up to some: the store as it was at some time, or how a replica sees it that takes in what
// it gets in the order of the commits. As writers rise with the version number, the commits of which such masks hold a version are found
// without a look at each version.
ghost use Rattle.std.specs.Prelude.{◌≡◌, ℕ, ◌<◌, ◌≤◌, true, List, length};
ghost use Rattle.std.proofs.Math.Option.{none};
ghost use Rattle.dependencies.specs.History.{Holds};
ghost use Rattle.store.specs.Limits.{max_keys};
ghost use Rattle.store.specs.Store.{View, Store};
ghost use Rattle.store.specs.History.{history, held};
ghost use Rattle.store.specs.Refusal.{bad_mask};
ghost use Rattle.state.specs.Room.{VersionsRoom, KeysRoom, FreshRoom};
ghost use Rattle.state.specs.Keeps.{IsSet};
ghost use Rattle.views.specs.Viewed.{NewMasks};
ghost use Rattle.views.specs.Prefix.{Downward, Prefixes, Lacks};

use crate::gathered;
use state::Key;

// Empty where the mask holds all versions up to its newest: the next number then has no digit in common with it.
fn gaps(mask: u64) -> u64
    ensures { result ≡ 0 → Downward mask }
{
    mask & std::num::wrapping_add_u64(mask, 1)
}

// Whether each mask holds all versions up to its newest.
pub fn prefixes(fresh: &[u64], n: usize) -> bool
    requires { n ≤ length fresh.now }
    ensures { result ≡ true → Prefixes fresh.now n }
{
    gathered(n, |k| gaps(fresh[k])) == 0
}

// The commits of which masks hold a version, and those of which they lack one.
#[derive(Clone, Copy)]
pub struct Parts {
    pub held: u64,
    pub lacking: u64,
}

// The commits of which the masks hold a version, and those of which they lack one: at each key the writers up to that of the newest
// version in the mask, and those above it.
pub fn split(versions: &[u64], keys: &[u64], fresh: &[u64], n: usize) -> Parts
    requires { (n ≤ max_keys) × VersionsRoom versions.now × KeysRoom keys.now × FreshRoom fresh.now }
    ensures { (s : Store) (old u : View) (masks : List ℕ) (base seen : ℕ)
        → NewMasks s old u n versions.now keys.now masks base seen fresh.now → bad_mask s u ≡ none → Prefixes fresh.now n
        → IsSet result.held (Holds (history s) (held u)) × IsSet result.lacking (Lacks s u) }
{
    let mut held = 0u64;
    let mut lacking = 0u64;
    for k in 0..n {
        let writer = state::newest_visible(versions, fresh[k], Key(k)).writer;
        let writers = keys[state::WRITERS + k];
        let later = sets::without(writers, sets::up_to(writer.0));
        held = sets::union(held, sets::without(writers, later));
        lacking = sets::union(lacking, later);
    }
    Parts { held, lacking }
}
