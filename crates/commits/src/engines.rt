// How a commit is judged: by the sets that are kept along the run, or by trying every commit as the next link (02, E10). What is promised of the two is
// the same, and said once.
ghost use Rattle.std.specs.Prelude.{ℕ, ◌+◌, ◌≤◌, ◌<◌, ◌≡◌, List, length};
ghost use Rattle.std.proofs.Math.Option.{Option};
ghost use Rattle.search.specs.Choose.{or_else};
ghost use Rattle.dependencies.specs.History.{Holds};
ghost use Rattle.store.specs.Limits.{max_keys, numbers};
ghost use Rattle.store.specs.Store.{Store, View, Commit, next_number};
ghost use Rattle.store.specs.History.{history, held};
ghost use Rattle.levels.specs.Level.{Level, clauses_of, Failure, fails_clauses};
ghost use Rattle.state.specs.Room.{VersionsRoom, KeysRoom, CommitsRoom, LinksRoom, FreshRoom};
ghost use Rattle.state.specs.Keeps.{IsSet, FollowsLinks};
ghost use Rattle.verdicts.specs.Wants.{Wants};
ghost use Rattle.verdicts.specs.Verdicts.{VerdictsRoom, Live, KeepsVerdicts};
ghost use Rattle.commits.specs.Engines.{BeforeCommit, JudgedAfter};

use crate::Engine;
use state::CommitNumber;
use trying::Tried;
use verdicts::Held;

// The commits of which the view at `base` holds a version, and those that clauses 3 to 8 want of it, as far as a level still asks for them; `seen` are those
// that it is kept to hold. The arrays keep the store before commit `me`.
pub fn wanted_by(
    engine: Engine,
    versions: &[u64],
    keys: &[u64],
    commits: &[u64],
    links: &mut [u64],
    verdicts: &[u64],
    views: &[u64],
    base: usize,
    seen: u64,
    ranks: u64,
    n: usize,
    me: CommitNumber,
) -> Tried
    requires { (n ≤ max_keys) × (me.0 < numbers) × VersionsRoom versions.now × KeysRoom keys.now × CommitsRoom commits.now × LinksRoom links.old × VerdictsRoom verdicts.now × (base + n ≤ length views.now) }
    ensures set { (s : Store) (u : View) (c : Commit) (values : List ℕ)
        → BeforeCommit s u c values versions.now keys.now commits.now links.old views.now base seen ranks n me.0
        → IsSet result.seen (Holds (history s) (held u)) × Wants s u c result.wanted }
    ensures asked { Live verdicts.now result.wanted.live }
    ensures kept { (s : Store) → s.keys ≡ n → next_number s ≡ me.0 → FollowsLinks s links.old → FollowsLinks s links.new }
{
    match engine {
        Engine::Fast => Tried {
            seen,
            wanted: verdicts::clauses::wanted(keys, commits, links, verdicts, seen, ranks, n, me),
        },
        Engine::Plain => trying::wanted(versions, keys, commits, views, base, ranks, n, me),
    }
}

// Judges commit `me` when it is made: the arrays keep the store after it, the view before stands in `views` from `base` on, the view after in `fresh`; `after`
// are the commits of which that one holds a version, `own` is the commit's own number, where it writes something, and `number` is the record's.
pub fn judge_by(
    engine: Engine,
    verdicts: &mut [u64],
    number: usize,
    tried: Tried,
    versions: &[u64],
    keys: &[u64],
    commits: &[u64],
    views: &[u64],
    base: usize,
    fresh: &[u64],
    after: u64,
    own: u64,
    ranks: u64,
    plain: bool,
    n: usize,
    me: CommitNumber,
)
    requires { VerdictsRoom verdicts.old × (n ≤ max_keys) × (me.0 < numbers) × VersionsRoom versions.now × KeysRoom keys.now × CommitsRoom commits.now × (base + n ≤ length views.now) × FreshRoom fresh.now }
    ensures { (s : Store) (u : View) (c : Commit) (values : List ℕ) (fs : Level → Option Failure)
        → JudgedAfter s u c tried after own versions.now keys.now commits.now views.now fresh.now values ranks plain base n me.0
        → Live verdicts.old tried.wanted.live → KeepsVerdicts fs verdicts.old
        → KeepsVerdicts (λ l. or_else (fs l) (fails_clauses number s u c (clauses_of l))) verdicts.new }
{
    match engine {
        Engine::Fast => {
            let held = Held {
                before: tried.seen,
                after,
                own,
            };
            verdicts::report::judge(
                verdicts,
                number,
                tried.wanted,
                versions,
                keys,
                commits,
                views,
                base,
                fresh,
                held,
                ranks,
                plain,
                n,
                me,
            )
        }
        Engine::Plain => trying::judge(
            verdicts, number, tried, versions, keys, commits, views, base, fresh, ranks, n, me,
        ),
    }
}
