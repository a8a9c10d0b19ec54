// The sessions of the clients and the log of the commits, kept along the trace: what SO leads from to a client's next commit, and
// the least session number that is free (above "every earlier number of that client in the trace, operations or none", 02, E7).
#![tactic(auto)]

ghost use Rattle.std.specs.Prelude.{◌≡◌, true, ◌↔◌, ◌<◌};
ghost use Rattle.store.specs.Limits.{max_clients, numbers};
ghost use Rattle.store.specs.Store.{Store, View, Commit, next_number};
ghost use Rattle.store.specs.Update.{update};
ghost use Rattle.growth.specs.Made.{Made, Operates};
ghost use Rattle.growth.specs.Links.{FromRead};
ghost use Rattle.state.specs.Room.{SessionsRoom, CommitsRoom};
ghost use Rattle.state.specs.Keeps.{IsSet, KeepsSessions, KeepsCommits};

use state::CommitNumber;

// The commit `me` of a client stands in the log, and its number is taken; where it has operations, it stands in its client's session too. `sources` are the
// writers of what it reads.
pub fn settle(
    sessions: &mut [u64],
    commits: &mut [u64],
    client: usize,
    session: u32,
    me: CommitNumber,
    operates: bool,
    sources: u64,
)
    requires { SessionsRoom sessions.old × CommitsRoom commits.old × (client < max_clients) × (me.0 < numbers) }
    ensures sessions { (s : Store) (u : View) (c : Commit) → Made s u c → next_number s ≡ me.0 → c.client ≡ client → c.session ≡ session
        → (operates ≡ true) ↔ Operates c → IsSet sources (FromRead s u c) → KeepsSessions s sessions.old
        → KeepsSessions (update s u c) sessions.new }
    ensures commits { (s : Store) (u : View) (c : Commit) → Made s u c → next_number s ≡ me.0 → c.client ≡ client → c.session ≡ session
        → (operates ≡ true) ↔ Operates c → IsSet sources (FromRead s u c) → KeepsSessions s sessions.old
        → KeepsCommits s commits.old → KeepsCommits (update s u c) commits.new }
{
    let t = me.0;
    commits[t] = (client as u64) + 4294967296 * (session as u64);
    if operates {
        let before = sessions[client];
        let drawn = sets::union(sessions[state::DRAWN + client], sources);
        sessions[client] = sets::insert(before, t);
        sessions[state::DRAWN + client] = drawn;
        sessions[state::BAR + client] = (session as u64) + 1;
        commits[state::BEFORE + t] = before;
        commits[state::READ_FROM + t] = drawn;
    } else {
        sessions[state::BAR + client] = 1 + (session as u64);
    }
}
