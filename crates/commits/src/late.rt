// The view after a commit: "is a view of the new store, and differs from u only at keys with an operation" (01, Store and views, 4).
ghost use Rattle.std.specs.Prelude.{ℕ, ◌≤◌, ◌<◌, ◌≡◌, List, T};
ghost use Rattle.std.proofs.Math.Option.{Option};
ghost use Rattle.store.specs.Limits.{max_keys, max_clients, numbers};
ghost use Rattle.store.specs.Store.{Configuration, Commit};
ghost use Rattle.store.specs.Update.{writes, view_before};
ghost use Rattle.growth.specs.Made.{Writes};
ghost use Rattle.levels.specs.Level.{Level, Failure};
ghost use Rattle.state.specs.Room.{VersionsRoom, KeysRoom, CommitsRoom, ViewsRoom, SeenRoom, FreshRoom};
ghost use Rattle.state.specs.Keeps.{IsSet, KeepsOperations};
ghost use Rattle.views.specs.Own.{AddsOwn};
ghost use Rattle.verdicts.specs.Verdicts.{VerdictsRoom, KeepsVerdicts};
ghost use Rattle.commits.specs.Codes.{LateGiven, AfterSays, JudgeGiven, LateSays};

use crate::Engine;
use crate::engines::judge_by;
use shifts::masks::sight;
use state::{Code, CommitNumber, Refusal};
use trying::Tried;

// The commit's own number, as a set; none where it writes nothing.
fn own_number(ranks: u64, n: usize, me: CommitNumber) -> u64
    requires { (n ≤ max_keys) × (me.0 < numbers) }
    ensures { (c : Commit) (values : List ℕ) → KeepsOperations c ranks values → ((k : ℕ) → T (writes c k) → k < n) → IsSet result (λ t. (t ≡ me.0) × Writes c) }
{
    if state::keys_with(ranks, 1, n) == 0 {
        return 0;
    }
    sets::single(me.0)
}

// Codes 10, 11 and 14, for the record of this number; or the commits of which the view after holds a version. The versions and keys are those of the store
// after the commit, the views those before it; `own` is the commit's own number, where it writes something. Where `plain` says that the view after is the view
// before and the commit's own versions, no code is due, and no search is made.
fn sight_after(
    number: usize,
    versions: &[u64],
    keys: &[u64],
    fresh: &[u64],
    views: &[u64],
    seen: &[u64],
    client: usize,
    ranks: u64,
    own: u64,
    plain: bool,
    n: usize,
) -> Result<u64, Refusal>
    requires { (1 ≤ n) × (n ≤ max_keys) × (client < max_clients) × VersionsRoom versions.now × KeysRoom keys.now × FreshRoom fresh.now × ViewsRoom views.now × SeenRoom seen.now }
    ensures { (g : Configuration) (c : Commit) (values : List ℕ) (me : ℕ)
        → LateGiven g c values versions.now keys.now fresh.now views.now seen.now client ranks n me
        → (T plain → AddsOwn g.store (view_before g c) c) → IsSet own (λ t. (t ≡ me) × Writes c)
        → AfterSays number g c result }
{
    if plain {
        return Ok(sets::union(seen[client], own));
    }
    let base = state::PER_CLIENT * client;
    let held = sight(number, versions, keys, fresh, views, base, seen[client], n)?;
    if let Some(k) = views::masks::stray(fresh, views, base, ranks, n) {
        return Err(Refusal::of_key(Code::Stray as usize, number, k));
    }
    Ok(held)
}

// A commit that is made, of the record of this number: codes 10, 11 and 14; where none is due, the levels judge it, the client's view is stored as the one
// that the commit was judged from, and the masks become the client's view.
// The other arrays keep the store after the commit, and `tried` has the commits of which the view before holds a version, and those that clauses 3 to 8 want of it.
pub fn late(
    number: usize,
    engine: Engine,
    tried: Tried,
    versions: &[u64],
    keys: &[u64],
    commits: &[u64],
    fresh: &[u64],
    views: &mut [u64],
    seen: &mut [u64],
    verdicts: &mut [u64],
    client: usize,
    ranks: u64,
    plain: bool,
    n: usize,
    me: CommitNumber,
) -> Result<(), Refusal>
    requires { (1 ≤ n) × (n ≤ max_keys) × (client < max_clients) × (me.0 < numbers) × VersionsRoom versions.now × KeysRoom keys.now × CommitsRoom commits.now × FreshRoom fresh.now × ViewsRoom views.old × SeenRoom seen.old × VerdictsRoom verdicts.old }
    ensures { (g : Configuration) (c : Commit) (values : List ℕ) (fs : Level → Option Failure)
        → LateGiven g c values versions.now keys.now fresh.now views.old seen.old client ranks n me.0
        → JudgeGiven g c tried plain commits.now verdicts.old → KeepsVerdicts fs verdicts.old
        → LateSays number g c fs views.new seen.new verdicts.new result }
{
    let own = own_number(ranks, n, me);
    let after = sight_after(
        number, versions, keys, fresh, views, seen, client, ranks, own, plain, n,
    )?;
    let base = state::PER_CLIENT * client;
    judge_by(
        engine, verdicts, number, tried, versions, keys, commits, views, base, fresh, after, own,
        ranks, plain, n, me,
    );
    views::masks::store_and_keep(views, base, fresh, n, me);
    seen[client] = after;
    Ok(())
}
