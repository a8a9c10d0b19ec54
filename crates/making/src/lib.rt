// One commit made on the arrays: its operations, its links and its place in its session (01, Store and views, 3).
#![tactic(auto)]

ghost use Rattle.std.specs.Prelude.{◌≤◌, ◌<◌, ◌≡◌, eqb, get_or};
ghost use Rattle.search.specs.Choose.{choose};
ghost use Rattle.store.specs.Limits.{max_keys, max_clients, numbers};
ghost use Rattle.store.specs.Store.{Store, View, Commit, next_number};
ghost use Rattle.store.specs.Update.{update};
ghost use Rattle.store.specs.Refusal.{wrong_read};
ghost use Rattle.state.specs.Answers.{sighting_of};
ghost use Rattle.state.specs.Room.{VersionsRoom, KeysRoom, ViewsRoom, SessionsRoom, CommitsRoom, LinksRoom, ValuesRoom};
ghost use Rattle.state.specs.Keeps.{KeepsCommits, FollowsLinks};
ghost use Rattle.making.specs.Commits.{CommitGiven, MadeIn};

use state::{CommitNumber, WrongRead};

// The earlier commits of a client, for a commit with operations; none for one without.
fn before_of(sessions: &[u64], client: usize, ranks: u64) -> u64
    requires { (client < max_clients) × SessionsRoom sessions.now }
    ensures { result ≡ choose (eqb ranks 0) 0 (get_or sessions.now client 0) }
{
    if ranks == 0 {
        return 0;
    }
    sessions[client]
}

// The commit is made: its operations on the versions and keys, its links, and its place in its session and in the log. Where a read is wrong (code 13), that is
// answered, and the commit is not made.
pub fn make(
    versions: &mut [u64],
    keys: &mut [u64],
    views: &[u64],
    sessions: &mut [u64],
    commits: &mut [u64],
    links: &mut [u64],
    values: &[u64],
    client: usize,
    session: u32,
    ranks: u64,
    n: usize,
    me: CommitNumber,
) -> Result<(), WrongRead>
    requires n_le_max_keys { (n ≤ max_keys) × (client < max_clients) × (me.0 < numbers) × VersionsRoom versions.old × KeysRoom keys.old × ViewsRoom views.now }
    requires sessions_room { SessionsRoom sessions.old × CommitsRoom commits.old × LinksRoom links.old × ValuesRoom values.now }
    ensures { (s : Store) (u : View) (c : Commit)
        → CommitGiven s u c versions.old keys.old views.now sessions.old values.now client ranks n
        → next_number s ≡ me.0 → c.session ≡ session → KeepsCommits s commits.old → FollowsLinks s links.old
        → (sighting_of result ≡ wrong_read s u c)
        × (result ≡ Ok tt → MadeIn (update s u c) versions.new keys.new sessions.new commits.new links.new) }
{
    let before = before_of(sessions, client, ranks);
    let linked = operations::perform(
        versions,
        keys,
        views,
        state::PER_CLIENT * client,
        values,
        ranks,
        n,
        me,
    )?;
    let from = linked.from;
    paths::note(links, me, before, from, linked.earlier, linked.over, ranks);
    sessions::settle(sessions, commits, client, session, me, ranks != 0, from);
    Ok(())
}
