// The version that a failing clause misses.
ghost use Rattle.std.specs.Prelude.{◌≡◌, List, ℕ, ◌+◌, ◌≤◌, length};
ghost use Rattle.store.specs.Limits.{max_keys};
ghost use Rattle.store.specs.Store.{Store, View, Commit};
ghost use Rattle.levels.specs.Clause.{Clause, clause_number, missing_by};
ghost use Rattle.state.specs.Room.{VersionsRoom, KeysRoom, FreshRoom};
ghost use Rattle.state.specs.Answers.{place_of};
ghost use Rattle.verdicts.specs.AtHand.{Judging};
ghost use Rattle.verdicts.specs.Verdicts.{Fails};

use crate::Hand;

// The first version that the clause of this number misses, where it is asked for and fails. The arrays keep the store after the commit: clause 2 is about this store and the view after; the
// others are about the store before, and the search is for versions by commits of which the view before holds nothing, so not by the commit itself.
pub fn missing_by(
    clause: usize,
    h: Hand,
    versions: &[u64],
    keys: &[u64],
    views: &[u64],
    base: usize,
    fresh: &[u64],
    n: usize,
) -> Option<state::Place>
    requires { (n ≤ max_keys) × VersionsRoom versions.now × KeysRoom keys.now × (base + n ≤ length views.now) × FreshRoom fresh.now }
    ensures { (s : Store) (u : View) (c : Commit) (values : List ℕ) → Judging s u c h values versions.now keys.now views.now fresh.now base n → (x : Clause) → clause_number x ≡ clause → Fails s u c h.wanted.live x → place_of result ≡ missing_by s u c x }
{
    let w = h.wanted;
    match clause {
        1 => h.lost,
        2 => views::missing::least_by_writer(versions, keys, fresh, 0, h.session, n),
        3 => views::missing::least_by_writer(versions, keys, views, base, w.before & w.lacking, n),
        4 => views::missing::least_by_reader(
            versions,
            keys,
            views,
            base,
            sets::union(w.before, h.seen),
            n,
        ),
        5 => views::missing::least_absent(keys, views, base, h.ranks, n),
        6 => views::missing::least_by_writer(versions, keys, views, base, w.prefix & w.lacking, n),
        7 => views::missing::least_by_writer(
            versions,
            keys,
            views,
            base,
            w.snapshot & w.lacking,
            n,
        ),
        _ => views::missing::least_by_writer(versions, keys, views, base, w.lacking, n),
    }
}
