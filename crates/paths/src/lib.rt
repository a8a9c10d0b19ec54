// Paths of links for clauses 6 and 7. The array `links` is described in crates/state (specs/Places.antt, specs/Keeps.antt): for each kind, 0 for
// clause 6 and 1 for clause 7, a row for each commit with the commits that lead to it by one step; then for each kind and key the commits that
// a link leads from to a reader of the key, which an RW link brings along to the next writer of the key. A commit's links are only noted when it is made: they
// are entered once a clause asks for them.
#![tactic(auto)]

ghost use Rattle.std.specs.Prelude.{◌≡◌, List, ℕ, ◌*◌, ◌<◌, ◌≤◌, T, get_or};
ghost use Rattle.sets.specs.Set.{has, below};
ghost use Rattle.store.specs.Limits.{max_keys, numbers};
ghost use Rattle.store.specs.Store.{Store, View, Commit, next_number};
ghost use Rattle.store.specs.Update.{update};
ghost use Rattle.growth.specs.Made.{Made};
ghost use Rattle.growth.specs.Links.{FromSession, FromRead, FromWrite, ToLater};
ghost use Rattle.state.specs.Places.{note_place};
ghost use Rattle.state.specs.Room.{LinksRoom};
ghost use Rattle.state.specs.Keeps.{IsSet, KeepsLinks, KeepsOperations, Noted, FollowsLinks};
ghost use Rattle.state.specs.Rows.{InRows};
ghost use Rattle.paths.specs.Path.{LeadsInto};
ghost use Rattle.paths.specs.Added.{BroughtBelow, Joined, RowsOf, LeadsOf};

use state::CommitNumber;

// The commits that lead to a member of the set by one or more steps, where `first` are those that do by one: a walk over the rows, each
// taken once. A round takes the rows of all that the rounds before it found, so that no row waits for another of its round.
fn walk(links: &[u64], kind: usize, set: u64, first: u64) -> u64
    requires { LinksRoom links.now × (kind < 2) }
    ensures { (s : Store) → KeepsLinks s links.now → IsSet first (InRows links.now (numbers * kind) set) → IsSet result (LeadsInto kind s set) }
{
    let mut all = first;
    let mut done = set;
    let mut left = sets::without(first, set);
    while left != 0 {
        all = sets::union(
            all,
            state::gather(links, store::Store::NUMBERS * kind, left),
        );
        done = sets::union(done, left);
        left = sets::without(all, done);
    }
    all
}

// Commits for clause 6 and for clause 7.
#[derive(Clone, Copy)]
pub struct Leads {
    pub prefix: u64,
    pub snapshot: u64,
}

// The numbers below the answer are all in the set. That it is the most is not said: only speed hangs on that.
fn run_length(set: u64) -> usize
    ensures { (result ≤ numbers) × ((i : ℕ) → i < result → T (has set i)) }
{
    let absent = sets::without(0xffff_ffff_ffff_ffff, set);
    if absent == 0 {
        return store::Store::NUMBERS;
    }
    sets::lowest(absent)
}

// The rows of the numbers below n, of clause 6 and of clause 7.
fn sweep(links: &[u64], n: usize) -> Leads
    requires { LinksRoom links.now × (n ≤ numbers) }
    ensures { IsSet result.prefix (InRows links.now 0 (below n)) × IsSet result.snapshot (InRows links.now numbers (below n)) }
{
    let mut prefix = 0u64;
    let mut snapshot = 0u64;
    for t in 0..n {
        prefix = sets::union(prefix, links[t]);
        snapshot = sets::union(snapshot, links[state::SNAPSHOT_LINKS + t]);
    }
    Leads { prefix, snapshot }
}

// The rows of the members of a set, of clause 6 and of clause 7: those of the run that it begins with in one sweep, as they stand one behind
// the other, and the others one by one. The set is nearly always a run and a few more.
fn rows_of(links: &[u64], set: u64) -> Leads
    requires { LinksRoom links.now }
    ensures { IsSet result.prefix (InRows links.now 0 set) × IsSet result.snapshot (InRows links.now numbers set) }
{
    let n = run_length(set);
    let run = sweep(links, n);
    let others = state::gather_two(
        links,
        0,
        state::SNAPSHOT_LINKS,
        sets::without(set, sets::below(n)),
    );
    let prefix = sets::union(run.prefix, others.first);
    let snapshot = sets::union(run.snapshot, others.second);
    Leads { prefix, snapshot }
}

// The commits that lead to a member of the set by one or more steps, of clause 6 and of clause 7. The rows of the set itself, which is
// most of the work, are taken for both at once.
pub fn leading(links: &[u64], set: u64) -> Leads
    requires { LinksRoom links.now }
    ensures { (s : Store) → KeepsLinks s links.now → IsSet result.prefix (LeadsInto 0 s set) × IsSet result.snapshot (LeadsInto 1 s set) }
{
    let rows = rows_of(links, set);
    let prefix = walk(links, 0, set, rows.prefix);
    let snapshot = walk(links, 1, set, rows.snapshot);
    Leads { prefix, snapshot }
}

// What the readers of the keys that are written bring along, for clause 6 and for clause 7.
fn brought(links: &[u64], ranks: u64, n: usize) -> Leads
    requires { LinksRoom links.now × (n ≤ max_keys) }
    ensures { IsSet result.prefix (BroughtBelow 0 links.now ranks n) × IsSet result.snapshot (BroughtBelow 1 links.now ranks n) }
{
    let mut prefix = 0u64;
    let mut snapshot = 0u64;
    for twice in sets::Members(state::keys_with(ranks, 1, n)) {
        let k = twice / 2;
        prefix = sets::union(prefix, links[state::LEADS + k]);
        snapshot = sets::union(snapshot, links[state::SNAPSHOT_LEADS + k]);
    }
    Leads { prefix, snapshot }
}

// Each commit of `over` gains steps: from `first` for clause 6, from `into` for clause 7.
fn point(links: &mut [u64], over: u64, first: u64, into: u64)
    requires { LinksRoom links.old }
    ensures { Joined (RowsOf over first into) links.old links.new }
{
    for t in sets::Members(over) {
        links[t] = sets::union(links[t], first);
        links[state::SNAPSHOT_LINKS + t] = sets::union(links[state::SNAPSHOT_LINKS + t], into);
    }
}

// Each key that is read gains these among what its readers bring along.
fn bring(links: &mut [u64], ranks: u64, n: usize, first: u64, into: u64)
    requires { LinksRoom links.old × (n ≤ max_keys) }
    ensures { Joined (LeadsOf ranks n first into) links.old links.new }
{
    for twice in sets::Members(state::keys_with(ranks, 0, n)) {
        let k = twice / 2;
        links[state::LEADS + k] = sets::union(links[state::LEADS + k], first);
        links[state::SNAPSHOT_LEADS + k] = sets::union(links[state::SNAPSHOT_LEADS + k], into);
    }
}

// The links with the commit `me`, whose operations have the given ranks, on keys below n: SO leads to it from `so`, WR from `sources` and WW from
// `earlier`, and RW leads from it to `over`. RW may follow SO and WR for clause 6, and WW too for clause 7; any of the three leads to it alone.
fn add(
    links: &mut [u64],
    me: CommitNumber,
    so: u64,
    sources: u64,
    earlier: u64,
    over: u64,
    ranks: u64,
    n: usize,
)
    requires { LinksRoom links.old × (me.0 < numbers) × (n ≤ max_keys) }
    ensures kept { (s : Store) (u : View) (c : Commit) (values : List ℕ) → Made s u c → next_number s ≡ me.0 → s.keys ≡ n → KeepsOperations c ranks values
        → IsSet so (FromSession s c) → IsSet sources (FromRead s u c) → IsSet earlier (FromWrite s c) → IsSet over (ToLater s u c)
        → KeepsLinks s links.old → KeepsLinks (update s u c) links.new }
    ensures notes { (part t : ℕ) → get_or links.new (note_place part t) 0 ≡ get_or links.old (note_place part t) 0 }
{
    let first = sets::union(so, sources);
    let into = sets::union(first, earlier);
    let more = brought(links, ranks, n);
    point(links, over, first, into);
    let t = me.0;
    links[t] = sets::union(into, more.prefix);
    links[state::SNAPSHOT_LINKS + t] = sets::union(into, more.snapshot);
    bring(links, ranks, n, first, into);
}

// The links with the commit `me`, as `add` is given them, are noted.
pub fn note(
    links: &mut [u64],
    me: CommitNumber,
    so: u64,
    sources: u64,
    earlier: u64,
    over: u64,
    ranks: u64,
)
    requires { LinksRoom links.old × (me.0 < numbers) }
    ensures { (s : Store) (u : View) (c : Commit) (values : List ℕ) → Made s u c → next_number s ≡ me.0 → KeepsOperations c ranks values
        → IsSet so (FromSession s c) → IsSet sources (FromRead s u c) → IsSet earlier (FromWrite s c) → IsSet over (ToLater s u c)
        → FollowsLinks s links.old → FollowsLinks (update s u c) links.new }
{
    let at = state::NOTES + state::NOTE * me.0;
    links[at] = so;
    links[at + 1] = sources;
    links[at + 2] = earlier;
    links[at + 3] = over;
    links[at + 4] = ranks;
}

// The links with commit `t`, as they are noted, are entered, on keys below n.
fn enter(links: &mut [u64], t: CommitNumber, n: usize)
    requires { LinksRoom links.old × (t.0 < numbers) × (n ≤ max_keys) }
    ensures kept { (s : Store) (u : View) (c : Commit) → Noted s u c links.old → next_number s ≡ t.0 → s.keys ≡ n
        → KeepsLinks s links.old → KeepsLinks (update s u c) links.new }
    ensures notes { (part t : ℕ) → get_or links.new (note_place part t) 0 ≡ get_or links.old (note_place part t) 0 }
{
    let at = state::NOTES + state::NOTE * t.0;
    let so = links[at];
    let sources = links[at + 1];
    let earlier = links[at + 2];
    let over = links[at + 3];
    let ranks = links[at + 4];
    add(links, t, so, sources, earlier, over, ranks, n);
}

// The links of all commits before `me` are entered, on keys below n.
pub fn catch_up(links: &mut [u64], n: usize, me: CommitNumber)
    requires { LinksRoom links.old × (me.0 < numbers) × (n ≤ max_keys) }
    ensures { (s : Store) → s.keys ≡ n → next_number s ≡ me.0 → FollowsLinks s links.old
        → KeepsLinks s links.new × FollowsLinks s links.new }
{
    if me.0 == 0 {
        return;
    }
    let end = me.0 - 1;
    let entered = links[state::ENTERED] as usize;
    for last in entered..end {
        enter(links, CommitNumber(last + 1), n);
    }
    links[state::ENTERED] = end as u64;
}
