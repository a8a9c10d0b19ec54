// The commits that lead to a member of a set within so many links, by recursion on their number.
ghost use Rattle.std.specs.Prelude.{◌≡◌, ℕ, ◌≤◌, T};
ghost use Rattle.sets.specs.Set.{has};
ghost use Rattle.relations.specs.Within.{Within};
ghost use Rattle.dependencies.specs.History.{StoredBelow};
ghost use Rattle.store.specs.Limits.{max_keys, numbers};
ghost use Rattle.state.specs.Room.{VersionsRoom, KeysRoom, CommitsRoom};
ghost use Rattle.state.specs.Keeps.{IsSet};
ghost use Rattle.trying.specs.Recorded.{recorded};
ghost use Rattle.trying.specs.Tries.{StepOf, StepsTo};

use crate::{Ends, links};

// The set in which a WW link may end: clause 6 has "WW" where clause 7 has "WW;RW?".
fn ends_of(kind: usize, near: u64, wide: u64) -> u64
    ensures { (kind ≡ 0 → result ≡ near) × ((¬ (kind ≡ 0)) → result ≡ wide) }
{
    if kind == 0 { near } else { wide }
}

// The commits below `most` that lead to a member of the set by one link of clause 6 (kind 0) or 7 (kind 1): "SO;RW? or WR;RW? or WW" and "SO;RW? or WR;RW? or
// WW;RW?". A link with RW? behind it may end in the set, or in a commit from which RW leads there.
fn round(
    kind: usize,
    near: u64,
    versions: &[u64],
    keys: &[u64],
    commits: &[u64],
    n: usize,
    most: usize,
) -> u64
    requires { (n ≤ max_keys) × (most ≤ numbers) × VersionsRoom versions.now × KeysRoom keys.now × CommitsRoom commits.now }
    ensures { StoredBelow most (recorded versions.now keys.now commits.now n) → IsSet result (StepsTo kind (recorded versions.now keys.now commits.now n) near) }
{
    let overwritten = Ends {
        session: 0,
        reader: 0,
        writer: 0,
        overwriter: near,
    };
    let wide = sets::union(
        near,
        links::tries(overwritten, versions, keys, commits, n, most),
    );
    let ends = Ends {
        session: wide,
        reader: wide,
        writer: ends_of(kind, near, wide),
        overwriter: 0,
    };
    links::tries(ends, versions, keys, commits, n, most)
}

// Those that lead to a member of `target` within so many links: those within one less, and whoever has a link to one of these or to a member.
pub fn within(
    links: usize,
    kind: usize,
    target: u64,
    versions: &[u64],
    keys: &[u64],
    commits: &[u64],
    n: usize,
    most: usize,
) -> u64
    requires { (n ≤ max_keys) × (most ≤ numbers) × VersionsRoom versions.now × KeysRoom keys.now × CommitsRoom commits.now }
    ensures { StoredBelow most (recorded versions.now keys.now commits.now n)
        → IsSet result (Within (StepOf kind (recorded versions.now keys.now commits.now n)) (λ t. T (has target t)) links) }
{
    if links == 0 {
        return 0;
    }
    let found = within(links - 1, kind, target, versions, keys, commits, n, most);
    let near = sets::union(target, found);
    sets::union(found, round(kind, near, versions, keys, commits, n, most))
}
