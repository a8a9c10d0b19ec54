// The first failure of each level: the clause (0 while the level has not failed), the record, the key and the version, a table of each with a word for
// each level in report order.
ghost use Rattle.std.specs.Prelude.{◌≡◌, List, ℕ, ◌+◌, ◌<◌, ◌≤◌, length, get_or};
ghost use Rattle.std.proofs.Math.Option.{Option};
ghost use Rattle.search.specs.Choose.{or_else};
ghost use Rattle.store.specs.Limits.{max_keys, numbers};
ghost use Rattle.store.specs.Store.{Store, View, Commit};
ghost use Rattle.levels.specs.Level.{Level, clauses_of, Failure, fails_clauses};
ghost use Rattle.state.specs.Room.{VersionsRoom, KeysRoom, CommitsRoom, FreshRoom};
ghost use Rattle.verdicts.specs.AtHand.{Judging, AfterCommit};
ghost use Rattle.verdicts.specs.Verdicts.{level_count, level_at, clause_place, VerdictsRoom, ClausesIn, Live, FailingClauses, written_down, NotesLevel, KeepsVerdicts};

use crate::{Hand, Held, Wanted, clauses, missing, table};
use state::CommitNumber;

// What a search by a clause found for a level.
fn write_down(
    verdicts: &mut [u64],
    level: usize,
    clause: usize,
    number: usize,
    at: Option<state::Place>,
)
    requires { VerdictsRoom verdicts.old × (level < level_count) }
    ensures { verdicts.new ≡ written_down verdicts.old level clause number at }
{
    if let Some(place) = at {
        verdicts[level] = clause as u64;
        verdicts[crate::RECORDS + level] = number as u64;
        verdicts[crate::KEYS + level] = place.key.0 as u64;
        verdicts[crate::VERSIONS + level] = place.version.0 as u64;
    }
}

// One level: "A commit fails a level at its lowest failing clause", and "A level keeps its first failure".
fn note_level(
    verdicts: &mut [u64],
    level: usize,
    failing: u64,
    number: usize,
    h: Hand,
    versions: &[u64],
    keys: &[u64],
    views: &[u64],
    base: usize,
    fresh: &[u64],
    n: usize,
)
    requires { VerdictsRoom verdicts.old × (level < level_count) × (n ≤ max_keys) × VersionsRoom versions.now × KeysRoom keys.now × (base + n ≤ length views.now) × FreshRoom fresh.now }
    ensures { (s : Store) (u : View) (c : Commit) (values : List ℕ) → Judging s u c h values versions.now keys.now views.now fresh.now base n → FailingClauses s u c h.wanted.live failing → (get_or verdicts.old (clause_place level) 0 ≡ 0 → ClausesIn level h.wanted.live) → NotesLevel level (fails_clauses number s u c (clauses_of (level_at level))) verdicts.old verdicts.new }
{
    if verdicts[level] != 0 {
        return;
    }
    let struck = table::clauses_of(level) & failing;
    if struck == 0 {
        return;
    }
    let clause = sets::lowest(struck);
    let at = missing::missing_by(clause, h, versions, keys, views, base, fresh, n);
    write_down(verdicts, level, clause, number, at);
}

// All levels, after a commit, of the record of that number, that fails the clauses of the set among those that are asked for.
pub fn note(
    verdicts: &mut [u64],
    failing: u64,
    number: usize,
    h: Hand,
    versions: &[u64],
    keys: &[u64],
    views: &[u64],
    base: usize,
    fresh: &[u64],
    n: usize,
)
    requires { VerdictsRoom verdicts.old × (n ≤ max_keys) × VersionsRoom versions.now × KeysRoom keys.now × (base + n ≤ length views.now) × FreshRoom fresh.now }
    ensures { (s : Store) (u : View) (c : Commit) (values : List ℕ) (fs : Level → Option Failure) → Judging s u c h values versions.now keys.now views.now fresh.now base n → FailingClauses s u c h.wanted.live failing → Live verdicts.old h.wanted.live → KeepsVerdicts fs verdicts.old → KeepsVerdicts (λ l. or_else (fs l) (fails_clauses number s u c (clauses_of l))) verdicts.new }
{
    for level in 0..crate::LEVELS {
        note_level(
            verdicts, level, failing, number, h, versions, keys, views, base, fresh, n,
        );
    }
}

// Judges a commit that is made: the arrays keep the store after it, the view before stands in `views` from `base` on, the view after in `fresh`, and `number` is
// the record's. `w` are the commits that clauses 3 to 8 want of the view before, as far as they are asked for. Where the view after is `plain`, the view before
// and the commit's own versions, clause 1 misses nothing; where besides nothing is lacking, no clause does.
pub fn judge(
    verdicts: &mut [u64],
    number: usize,
    w: Wanted,
    versions: &[u64],
    keys: &[u64],
    commits: &[u64],
    views: &[u64],
    base: usize,
    fresh: &[u64],
    held: Held,
    ranks: u64,
    plain: bool,
    n: usize,
    me: CommitNumber,
)
    requires { VerdictsRoom verdicts.old × (n ≤ max_keys) × (me.0 < numbers) × VersionsRoom versions.now × KeysRoom keys.now × CommitsRoom commits.now × (base + n ≤ length views.now) × FreshRoom fresh.now }
    ensures { (s : Store) (u : View) (c : Commit) (values : List ℕ) (fs : Level → Option Failure) → AfterCommit s u c w held versions.now keys.now commits.now views.now fresh.now values ranks plain base n me.0 → Live verdicts.old w.live → KeepsVerdicts fs verdicts.old → KeepsVerdicts (λ l. or_else (fs l) (fails_clauses number s u c (clauses_of l))) verdicts.new }
{
    if plain {
        if w.lacking == 0 {
            return;
        }
    }
    let mut lost = None;
    if !plain {
        lost = views::masks::lost(fresh, views, base, n);
    }
    let writers = sets::union(sets::union(held.before, w.lacking), held.own);
    let h = Hand {
        seen: held.before,
        ranks,
        lost,
        session: sets::insert(commits[state::BEFORE + me.0], me.0),
        absent: sets::without(writers, held.after),
        wanted: w,
    };
    let failing = clauses::failing(h);
    if failing == 0 {
        return;
    }
    note(
        verdicts, failing, number, h, versions, keys, views, base, fresh, n,
    );
}
