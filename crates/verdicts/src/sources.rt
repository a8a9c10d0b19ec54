// Sets of writers gathered from the keys.
ghost use Rattle.std.specs.Prelude.{◌≤◌};
ghost use Rattle.store.specs.Limits.{max_keys};
ghost use Rattle.state.specs.Room.{KeysRoom};
ghost use Rattle.state.specs.Keeps.{IsSet};
ghost use Rattle.verdicts.specs.Sources.{InKeys};

// The writers of the keys that have a write among the ranks.
pub fn written(keys: &[u64], ranks: u64, n: usize) -> u64
    requires { (n ≤ max_keys) × KeysRoom keys.now }
    ensures { IsSet result (InKeys keys.now ranks n) }
{
    let mut all = 0u64;
    for twice in sets::Members(state::keys_with(ranks, 1, n)) {
        let k = twice / 2;
        all = sets::union(all, keys[state::WRITERS + k]);
    }
    all
}
