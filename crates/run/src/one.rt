// One record of a run: a view shift or a commit, on the arrays that keep the store.
ghost use Rattle.std.specs.Prelude.{ℕ, ◌≤◌};
ghost use Rattle.std.proofs.Math.Option.{Option};
ghost use Rattle.store.specs.Limits.{max_keys};
ghost use Rattle.store.specs.Store.{Configuration};
ghost use Rattle.trace.specs.Entry.{event};
ghost use Rattle.trace.specs.Meaning.{entry_of};
ghost use Rattle.trace.specs.Sorted.{RecordSorted};
ghost use Rattle.levels.specs.Level.{Level, Failure};
ghost use Rattle.state.specs.Room.{Room, ValuesRoom, FreshRoom};
ghost use Rattle.verdicts.specs.Verdicts.{VerdictsRoom};
ghost use Rattle.commits.specs.Records.{EventDone};
ghost use Rattle.run.specs.OneRecord.{Readable, Standing, Fitting};

use commits::Engine;
use commits::record::{CommitAt, commit_to};
use shifts::shift::shift_to;
use state::{CommitNumber, Refusal};
use trace::records::Record;

// A record of the file, done: a view shift, or a commit for which there is a number left, its operations sorted by these ranks.
pub fn one_record(
    file: &[u8],
    r: Record,
    ranks: u64,
    number: usize,
    made: usize,
    versions: &mut [u64],
    keys: &mut [u64],
    views: &mut [u64],
    seen: &mut [u64],
    sessions: &mut [u64],
    commits: &mut [u64],
    links: &mut [u64],
    verdicts: &mut [u64],
    values: &[u64],
    fresh: &mut [u64],
    n: usize,
    engine: Engine,
) -> Result<(), Refusal>
    requires le_n { (1 ≤ n) × (n ≤ max_keys) × Readable file.now n made r × RecordSorted file.now ranks values.now r }
    requires values_room { ValuesRoom values.now × FreshRoom fresh.old × VerdictsRoom verdicts.old }
    requires room { Room versions.old keys.old views.old seen.old sessions.old commits.old links.old }
    ensures { (g : Configuration) (fs : Level → Option Failure) (clients : ℕ) → Fitting file.now n clients r
        → Standing g fs n made versions.old keys.old views.old seen.old sessions.old commits.old links.old verdicts.old values.now
        → EventDone number g fs (event g (entry_of file.now n r)) versions.new keys.new views.new seen.new sessions.new commits.new links.new verdicts.new values.now result }
{
    match r {
        Record::Shift { client, listing } => {
            shift_to(
                file, listing, number, client, versions, keys, views, seen, fresh, n,
            )
        }
        Record::Commit {
            client,
            count,
            session,
            operations,
            listing,
        } => {
            let at = CommitAt {
                client,
                count,
                session,
                operations,
                ranks,
                listing,
            };
            let next = made + 1;
            commit_to(
                file,
                at,
                number,
                versions,
                keys,
                views,
                seen,
                sessions,
                commits,
                links,
                verdicts,
                values,
                fresh,
                n,
                CommitNumber(next),
                engine,
            )
        }
    }
}
