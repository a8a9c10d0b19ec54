// The plain second engine (02, E10): what the clauses want of a view and what the levels say of a commit, by trying. Every set of commits is found anew from the
// versions of the store, their readers and the log; of the rows in which the judge keeps such sets nothing is looked at. Where the first version that a
// clause misses is searched for, the search is the judge's (crates/verdicts).
#![tactic(auto)]

mod gather; // gather.rt: sets of commits by their versions
mod links; // links.rt: the commits that have a link to a member of a set
mod path; // path.rt: the commits that lead to a member of a set within so many links

ghost use Rattle.std.specs.Prelude.{◌≡◌, List, ℕ, ◌+◌, ◌<◌, ◌≤◌, length};
ghost use Rattle.std.proofs.Math.Option.{Option};
ghost use Rattle.search.specs.Choose.{or_else};
ghost use Rattle.dependencies.specs.History.{Holds};
ghost use Rattle.store.specs.Limits.{max_keys, max_clients, numbers};
ghost use Rattle.store.specs.Store.{Store, View, Commit, next_number};
ghost use Rattle.store.specs.Update.{update};
ghost use Rattle.store.specs.View.{IsView};
ghost use Rattle.store.specs.Sound.{SoundStore};
ghost use Rattle.store.specs.History.{history, held};
ghost use Rattle.store.specs.Image.{ClientsFit};
ghost use Rattle.growth.specs.Made.{Made};
ghost use Rattle.levels.specs.Level.{Level, clauses_of, Failure, fails_clauses};
ghost use Rattle.state.specs.Room.{VersionsRoom, KeysRoom, CommitsRoom, FreshRoom};
ghost use Rattle.state.specs.Keeps.{IsSet, KeepsVersions, KeepsKeys, KeepsCommits, KeepsMasks, KeepsOperations};
ghost use Rattle.state.specs.Rows.{RowAt};
ghost use Rattle.views.specs.Rules.{StoreAndView};
ghost use Rattle.verdicts.specs.Wants.{Wants};
ghost use Rattle.verdicts.specs.Verdicts.{VerdictsRoom, Live, KeepsVerdicts};

use state::CommitNumber;
use verdicts::{Hand, Wanted};

// For each kind of link, the commits in which it may end: SO, WR (a reader of what was written), WW (the writer of a later version) and RW (the overwriter of
// what was read).
#[derive(Clone, Copy)]
pub struct Ends {
    pub session: u64,
    pub reader: u64,
    pub writer: u64,
    pub overwriter: u64,
}

// The commits before some others in SO, and those from which these others, or a commit before them in SO, have read.
#[derive(Clone, Copy)]
pub struct Past {
    pub before: u64,
    pub read: u64,
}

// The commits of which the view before a commit holds a version, and those that clauses 3 to 8 want of it.
#[derive(Clone, Copy)]
pub struct Tried {
    pub seen: u64,
    pub wanted: Wanted,
}

// What the clauses want of the view at `base`, on the arrays that keep the store before commit `me`.
pub fn wanted(
    versions: &[u64],
    keys: &[u64],
    commits: &[u64],
    views: &[u64],
    base: usize,
    ranks: u64,
    n: usize,
    me: CommitNumber,
) -> Tried
    requires { (n ≤ max_keys) × (me.0 < numbers) × VersionsRoom versions.now × KeysRoom keys.now × CommitsRoom commits.now × (base + n ≤ length views.now) }
    ensures set { (s : Store) (u : View) (c : Commit) (values : List ℕ) → s.keys ≡ n → SoundStore s → next_number s ≡ me.0 → ClientsFit s → KeepsVersions s versions.now → KeepsKeys s keys.now
        → KeepsCommits s commits.now → RowAt n views.now base u → KeepsOperations c ranks values
        → IsSet result.seen (Holds (history s) (held u)) × Wants s u c result.wanted }
    ensures asked { (verdicts : List ℕ) → Live verdicts result.wanted.live }
{
    let seen = gather::held(versions, keys, views, base, n);
    let lacking = gather::lacking(versions, keys, seen, n);
    let written = gather::writers(versions, keys, ranks, n);
    let past = links::past(seen, versions, keys, commits, n, me.0);
    let prefix = path::within(me.0, 0, seen, versions, keys, commits, n, me.0);
    let snapshot = path::within(me.0, 1, seen, versions, keys, commits, n, me.0);
    Tried {
        seen,
        wanted: Wanted {
            live: verdicts::EVERY_CLAUSE,
            lacking,
            before: past.before,
            read: past.read,
            written,
            prefix,
            snapshot,
        },
    }
}

// Judges commit `me` when it is made: the arrays keep the store after it, the view before stands in `views` from `base` on, the view after in `fresh`, and `number`
// is the record's.
pub fn judge(
    verdicts: &mut [u64],
    number: usize,
    tried: Tried,
    versions: &[u64],
    keys: &[u64],
    commits: &[u64],
    views: &[u64],
    base: usize,
    fresh: &[u64],
    ranks: u64,
    n: usize,
    me: CommitNumber,
)
    requires { VerdictsRoom verdicts.old × (n ≤ max_keys) × (me.0 < numbers) × VersionsRoom versions.now × KeysRoom keys.now × CommitsRoom commits.now × (base + n ≤ length views.now) × FreshRoom fresh.now }
    ensures { (s : Store) (u : View) (c : Commit) (values : List ℕ) (fs : Level → Option Failure) → Made s u c → IsView (update s u c) c.view_after → next_number s ≡ me.0
        → ClientsFit s → c.client < max_clients → StoreAndView (update s u c) u n versions.now keys.now views.now base → KeepsCommits (update s u c) commits.now
        → KeepsOperations c ranks values → KeepsMasks n c.view_after fresh.now → IsSet tried.seen (Holds (history s) (held u)) → Wants s u c tried.wanted
        → Live verdicts.old tried.wanted.live → KeepsVerdicts fs verdicts.old → KeepsVerdicts (λ l. or_else (fs l) (fails_clauses number s u c (clauses_of l))) verdicts.new }
{
    let session = links::up_to(versions, keys, commits, n, me);
    let after = gather::held(versions, keys, fresh, 0, n);
    let absent = gather::lacking(versions, keys, after, n);
    let lost = views::masks::lost(fresh, views, base, n);
    let wanted = tried.wanted;
    let h = Hand {
        seen: tried.seen,
        ranks,
        lost,
        session,
        absent,
        wanted,
    };
    let failing = verdicts::clauses::failing(h);
    verdicts::report::note(
        verdicts, failing, number, h, versions, keys, views, base, fresh, n,
    );
}
