// A trace file is taken or refused, by codes 1 to 14: its header, and then its records, the form of all before the meaning of any. Where it is taken, the arrays that were lent
// keep its last store, and the answer has its verdicts. Whatever a call makes of a taken trace comes after this and is its own: the call makes the
// arrays of the opening store, lends them here, and ends with what it writes or answers.
#![tactic(auto)]

ghost use Rattle.std.specs.Prelude.{List, ℕ};
ghost use Rattle.trace.specs.Meaning.{Headed};
ghost use Rattle.taking.specs.Taking.{Opened, TakingSays};

use commits::Engine;
use run::Stop;
use state::Refusal;
use store::Store;
use trace::form::{Header, header_of};
use verdicts::told::{Verdicts, verdicts_from};

// What a file that is not refused comes to: a trace with its header and so many commits, and the verdicts of the levels.
#[derive(Clone, Copy)]
pub struct Taken {
    pub header: Header,
    pub commits: usize,
    pub verdicts: Verdicts,
}

// A file with its header: its records are run from the opening on.
fn take_records(
    file: &[u8],
    h: Header,
    versions: &mut [u64],
    keys: &mut [u64],
    commits: &mut [u64],
    views: &mut [u64],
    engine: Engine,
) -> Result<Taken, Refusal>
    requires headed { Headed file.now h }
    requires opened { Opened versions.old keys.old commits.old views.old }
    ensures { TakingSays file.now versions.new keys.new commits.new views.new result }
{
    let s = Store::opening();
    let mut seen = s.seen;
    let mut sessions = s.sessions;
    let mut links = s.links;
    let mut noted = [0u64; verdicts::WORDS];
    let mut values = [0u64; state::VALUES];
    let mut fresh = [0u64; state::FRESH];
    let ran = run::run_all(
        file,
        h.keys,
        h.clients,
        h.records,
        versions,
        keys,
        views,
        &mut seen,
        &mut sessions,
        commits,
        &mut links,
        &mut noted,
        &mut values,
        &mut fresh,
        engine,
    );
    match ran {
        Ok(commits) => Ok(Taken {
            header: h,
            commits,
            verdicts: verdicts_from(&noted),
        }),
        Err(Stop::Misshapen(m)) => Err(Refusal::of_record(m.code, m.record)),
        Err(Stop::Refused(refusal)) => Err(refusal),
    }
}

// The bytes of a file, whatever they are, on the arrays of the opening store.
pub fn take_file(
    file: &[u8],
    versions: &mut [u64],
    keys: &mut [u64],
    commits: &mut [u64],
    views: &mut [u64],
    engine: Engine,
) -> Result<Taken, Refusal>
    requires { Opened versions.old keys.old commits.old views.old }
    ensures { TakingSays file.now versions.new keys.new commits.new views.new result }
{
    match header_of(file) {
        Ok(h) => take_records(file, h, versions, keys, commits, views, engine),
        Err(m) => Err(Refusal::of_record(m.code, m.record)),
    }
}

// The same for a call that has no use for the last store: the arrays are made and dropped here.
pub fn take(file: &[u8]) -> Result<Taken, Refusal>
    ensures { (versions : List ℕ) × (keys : List ℕ) × (commits : List ℕ) × (views : List ℕ) × TakingSays file.now versions keys commits views result }
{
    let s = Store::opening();
    let mut versions = s.versions;
    let mut keys = s.keys;
    let mut commits = s.commits;
    let mut views = [1u64; state::VIEWS];
    take_file(
        file,
        &mut versions,
        &mut keys,
        &mut commits,
        &mut views,
        Engine::Fast,
    )
}
