// One commit of the trace, whole.
ghost use Rattle.std.specs.Prelude.{ℕ, ◌+◌, ◌*◌, ◌≤◌, ◌<◌, ◌≡◌, List};
ghost use Rattle.std.proofs.Math.Option.{Option};
ghost use Rattle.store.specs.Limits.{max_keys, max_clients, numbers};
ghost use Rattle.store.specs.Store.{Configuration, Commit, next_number, commit};
ghost use Rattle.trace.specs.Meaning.{ListingFits};
ghost use Rattle.trace.specs.Sorted.{ListsBy};
ghost use Rattle.levels.specs.Level.{Level, Failure};
ghost use Rattle.state.specs.Room.{ViewsRoom, FreshRoom, ValuesRoom, Room};
ghost use Rattle.state.specs.Keeps.{KeepsMasks};
ghost use Rattle.verdicts.specs.Verdicts.{VerdictsRoom, KeepsVerdicts};
ghost use Rattle.commits.specs.Records.{ValuesFit, SortedIn, commit_in, Recorded, Ready, EventDone};

use crate::Engine;
use crate::engines::wanted_by;
use crate::late::late;
use state::{Code, CommitNumber, Refusal};
use trace::records::Listing;

// Where the parts of a commit stand in the file, the ranks of its operations, and what it lists of its view after.
#[derive(Clone, Copy)]
pub struct CommitAt {
    pub client: usize,
    pub count: usize,
    pub session: u32,
    pub operations: usize,
    pub ranks: u64,
    pub listing: Listing,
}

// The masks of the view after the commit are read.
fn view_after(file: &[u8], at: CommitAt, views: &[u64], fresh: &mut [u64], n: usize)
    requires { (n ≤ max_keys) × (at.client < max_clients) × ListingFits file.now n at.listing × ListsBy file.now at.ranks at.listing × ViewsRoom views.now × FreshRoom fresh.old }
    ensures { (g : Configuration) (clients : ℕ) (versions keys seen sessions commits links : List ℕ)
        → Recorded g (commit_in g file.now at n) clients n versions keys views.now seen sessions commits links
        → KeepsMasks n (commit_in g file.now at n).view_after fresh.new }
{
    let client = at.client;
    let listing = at.listing;
    trace::contents::commit_into(
        file,
        at.ranks,
        listing,
        views,
        state::PER_CLIENT * client,
        fresh,
        n,
    );
}

// A commit whose session number is not too small: what those of clauses 3 to 8 want of the view before that a level still asks for is gathered, it is made unless a read is wrong (code 13), its view
// after is tested (codes 10, 11 and 14), and the levels judge it. In the common case that the view after is the view before and the commit's own versions, no search is made in it.
fn complete(
    number: usize,
    client: usize,
    session: u32,
    ranks: u64,
    versions: &mut [u64],
    keys: &mut [u64],
    views: &mut [u64],
    seen: &mut [u64],
    sessions: &mut [u64],
    commits: &mut [u64],
    links: &mut [u64],
    verdicts: &mut [u64],
    values: &[u64],
    fresh: &[u64],
    n: usize,
    me: CommitNumber,
    engine: Engine,
) -> Result<(), Refusal>
    requires le_n { (1 ≤ n) × (n ≤ max_keys) × (client < max_clients) × (me.0 < numbers) × ValuesRoom values.now × FreshRoom fresh.now × VerdictsRoom verdicts.old }
    requires room { Room versions.old keys.old views.old seen.old sessions.old commits.old links.old }
    ensures { (g : Configuration) (c : Commit) (clients : ℕ) (fs : Level → Option Failure)
        → Ready g c clients client session ranks n me.0 versions.old keys.old views.old seen.old sessions.old commits.old links.old values.now fresh.now
        → KeepsVerdicts fs verdicts.old
        → EventDone number g fs (commit c) versions.new keys.new views.new seen.new sessions.new commits.new links.new verdicts.new values.now result }
{
    let tried = wanted_by(
        engine,
        versions,
        keys,
        commits,
        links,
        verdicts,
        views,
        state::PER_CLIENT * client,
        seen[client],
        ranks,
        n,
        me,
    );
    making::make(
        versions, keys, views, sessions, commits, links, values, client, session, ranks, n, me,
    )
    .map_err(|wrong| Refusal::of_read(number, wrong.key, wrong.sees))?;
    let plain = views::masks::adds_own(fresh, views, state::PER_CLIENT * client, versions, n, me);
    late(
        number, engine, tried, versions, keys, commits, fresh, views, seen, verdicts, client,
        ranks, plain, n, me,
    )
}

// A commit of the trace: its codes in their order; where none is due, the arrays keep the configuration after it, and each level that
// had not failed has its failure noted, if it fails here.
pub fn commit_to(
    file: &[u8],
    at: CommitAt,
    number: usize,
    versions: &mut [u64],
    keys: &mut [u64],
    views: &mut [u64],
    seen: &mut [u64],
    sessions: &mut [u64],
    commits: &mut [u64],
    links: &mut [u64],
    verdicts: &mut [u64],
    values: &[u64],
    fresh: &mut [u64],
    n: usize,
    me: CommitNumber,
    engine: Engine,
) -> Result<(), Refusal>
    requires le_n { (1 ≤ n) × (n ≤ max_keys) × (me.0 < numbers) × (at.client < max_clients) × ListingFits file.now n at.listing × SortedIn file.now at values.now }
    requires values_room { ValuesRoom values.now × FreshRoom fresh.old × VerdictsRoom verdicts.old }
    requires room { Room versions.old keys.old views.old seen.old sessions.old commits.old links.old }
    ensures { (g : Configuration) (clients : ℕ) (fs : Level → Option Failure)
        → Recorded g (commit_in g file.now at n) clients n versions.old keys.old views.old seen.old sessions.old commits.old links.old
        → next_number g.store ≡ me.0 → ValuesFit values.now → KeepsVerdicts fs verdicts.old
        → EventDone number g fs (commit (commit_in g file.now at n)) versions.new keys.new views.new seen.new sessions.new commits.new links.new verdicts.new values.now result }
{
    let client = at.client;
    let session = at.session;
    if (session as u64) < sessions[state::BAR + client] {
        return Err(Refusal::of_record(Code::SessionNumber as usize, number));
    }
    let ranks = at.ranks;
    view_after(file, at, views, fresh, n);
    complete(
        number, client, session, ranks, versions, keys, views, seen, sessions, commits, links,
        verdicts, values, fresh, n, me, engine,
    )
}
