// The clauses, tested on sets of commits: as a view holds all or none of a writer, it misses a version by one of certain commits exactly where one of
// them is lacking, that is, where the view holds nothing of what it wrote.
ghost use Rattle.std.specs.Prelude.{◌≡◌, List, ◌⊎◌, ◌↔◌, ℕ, ◌<◌, ◌≤◌, T};
ghost use Rattle.std.proofs.Math.Option.{none};
ghost use Rattle.sets.specs.Set.{has, insert, width};
ghost use Rattle.dependencies.specs.History.{Holds};
ghost use Rattle.store.specs.Limits.{max_keys, numbers};
ghost use Rattle.store.specs.Store.{Store, View, Commit, next_number};
ghost use Rattle.store.specs.Sound.{SoundStore};
ghost use Rattle.store.specs.History.{history, held};
ghost use Rattle.growth.specs.Ordered.{Ordered};
ghost use Rattle.state.specs.Room.{KeysRoom, CommitsRoom, LinksRoom};
ghost use Rattle.state.specs.Keeps.{IsSet, KeepsKeys, KeepsCommits, KeepsOperations, FollowsLinks};
ghost use Rattle.state.specs.Answers.{place_of};
ghost use Rattle.paths.specs.Path.{LeadsInto};
ghost use Rattle.verdicts.specs.Sources.{InKeys, PastOf};
ghost use Rattle.verdicts.specs.Wants.{Wants};
ghost use Rattle.verdicts.specs.AtHand.{AtHand};
ghost use Rattle.verdicts.specs.Verdicts.{VerdictsRoom, Live, FailingClauses};

use crate::{Hand, Wanted, sources, table};

// For clauses 3 and 4: what is before the commits of the set in SO, and what they and these read from. Both lead from smaller numbers to larger, so that
// nothing that is lacking does where the set is below all of it, and then nothing is gathered.
fn past(commits: &[u64], seen: u64, lacking: u64, live: u64) -> state::Gathered
    requires { CommitsRoom commits.now × (0 < lacking) }
    ensures { PastOf commits.now seen lacking live result }
{
    if live & 24 == 0 {
        return state::Gathered {
            first: 0,
            second: 0,
        };
    }
    if seen < sets::single(sets::lowest(lacking)) {
        return state::Gathered {
            first: 0,
            second: 0,
        };
    }
    state::gather_two(commits, state::BEFORE, state::READ_FROM, seen)
}

// For clauses 6 and 7: what leads to the commits of the set. The links of the commits before `me` are entered first.
fn leads(links: &mut [u64], seen: u64, live: u64, n: usize, me: state::CommitNumber) -> paths::Leads
    requires { LinksRoom links.old × (me.0 < numbers) × (n ≤ max_keys) }
    ensures set { T (has live 6) ⊎ T (has live 7) → (s : Store) → s.keys ≡ n → next_number s ≡ me.0 → FollowsLinks s links.old
        → IsSet result.prefix (LeadsInto 0 s seen) × IsSet result.snapshot (LeadsInto 1 s seen) }
    ensures kept { (s : Store) → s.keys ≡ n → next_number s ≡ me.0 → FollowsLinks s links.old → FollowsLinks s links.new }
{
    if live & 192 == 0 {
        return paths::Leads {
            prefix: 0,
            snapshot: 0,
        };
    }
    paths::catch_up(links, n, me);
    paths::leading(links, seen)
}

// For clause 5: the writers of the keys that are written.
fn written(keys: &[u64], ranks: u64, live: u64, n: usize) -> u64
    requires { (n ≤ max_keys) × KeysRoom keys.now }
    ensures { T (has live 5) → IsSet result (InKeys keys.now ranks n) }
{
    if live & 32 == 0 {
        return 0;
    }
    sources::written(keys, ranks, n)
}

// What the clauses that are still asked for want of the view that holds the commits `seen`, before commit `me`; nothing where no commit is lacking.
pub fn wanted(
    keys: &[u64],
    commits: &[u64],
    links: &mut [u64],
    verdicts: &[u64],
    seen: u64,
    ranks: u64,
    n: usize,
    me: state::CommitNumber,
) -> Wanted
    requires { (n ≤ max_keys) × (me.0 < numbers) × KeysRoom keys.now × CommitsRoom commits.now × LinksRoom links.old × VerdictsRoom verdicts.now }
    ensures asked { Live verdicts.now result.live }
    ensures wants { (s : Store) (u : View) (c : Commit) (values : List ℕ) → s.keys ≡ n → next_number s ≡ me.0 → SoundStore s → Ordered s
        → KeepsKeys s keys.now → KeepsCommits s commits.now → FollowsLinks s links.old → KeepsOperations c ranks values
        → IsSet seen (Holds (history s) (held u)) → Wants s u c result }
    ensures kept { (s : Store) → s.keys ≡ n → next_number s ≡ me.0 → FollowsLinks s links.old → FollowsLinks s links.new }
{
    let lacking = sets::without(views::held::all_writers(keys, n), seen);
    if lacking == 0 {
        return Wanted {
            live: crate::EVERY_CLAUSE,
            lacking: 0,
            before: 0,
            read: 0,
            written: 0,
            prefix: 0,
            snapshot: 0,
        };
    }
    let live = table::live(verdicts);
    let past = past(commits, seen, lacking, live);
    let leads = leads(links, seen, live, n, me);
    let written = written(keys, ranks, live, n);
    Wanted {
        live,
        lacking,
        before: past.first,
        read: past.second,
        written,
        prefix: leads.prefix,
        snapshot: leads.snapshot,
    }
}

// 0 where nothing was found.
fn found(f: Option<state::Place>) -> u64
    ensures { (result ≡ 0) ↔ (place_of f ≡ none) }
{
    match f {
        Some(_) => 1,
        None => 0,
    }
}

// The set with the clause in it, where `met` is not 0.
fn mark(set: u64, clause: usize, met: u64) -> u64
    requires { clause < width }
    ensures { (met ≡ 0 → result ≡ set) × (¬ (met ≡ 0) → result ≡ insert clause set) }
{
    if met == 0 {
        set
    } else {
        sets::insert(set, clause)
    }
}

// The numbers of the clauses that fail, among those that are asked for.
pub fn failing(h: Hand) -> u64
    ensures { (s : Store) (u : View) (c : Commit) → AtHand s u c h → FailingClauses s u c h.wanted.live result }
{
    let w = h.wanted;
    let lost = h.lost;
    let a = mark(0, 1, found(lost));
    let b = mark(a, 2, h.session & h.absent);
    let c = mark(b, 3, w.before & w.lacking);
    let d = mark(c, 4, w.read & w.lacking);
    let e = mark(d, 5, w.written & w.lacking);
    let f = mark(e, 6, w.prefix & w.lacking);
    let g = mark(f, 7, w.snapshot & w.lacking);
    let i = mark(g, 8, w.lacking);
    i & w.live
}
