// The verdicts as they are answered, from the words in which they are kept.
ghost use Rattle.std.specs.Prelude.{◌≡◌, ◌<◌};
ghost use Rattle.std.proofs.Math.Option.{Option};
ghost use Rattle.search.specs.Choose.{map_some};
ghost use Rattle.levels.specs.Level.{Level, Failure};
ghost use Rattle.verdicts.specs.Verdicts.{level_count, VerdictsRoom, KeepsVerdict, KeepsVerdicts};
ghost use Rattle.verdicts.specs.Told.{tell, tell_all, verdict_of, verdicts_of};

use crate::{KEYS, RECORDS, VERSIONS};
use state::{Key, VersionNumber};

// The first commit that fails a level, by its record, with the clause, the key and the version.
#[derive(Clone, Copy)]
pub struct FirstFailure {
    pub record: usize,
    pub clause: usize,
    pub key: Key,
    pub version: VersionNumber,
}

// What a level says of a trace: it accepts, or it is refused at the first commit that fails it.
pub type Verdict = Result<(), FirstFailure>;

// The verdicts of the ten levels, in report order.
#[derive(Clone, Copy)]
pub struct Verdicts {
    pub mr: Verdict,
    pub mw: Verdict,
    pub ryw: Verdict,
    pub wfr: Verdict,
    pub cc: Verdict,
    pub ua: Verdict,
    pub psi: Verdict,
    pub cp: Verdict,
    pub si: Verdict,
    pub ser: Verdict,
}

// The verdict of the level at place i in report order.
fn verdict_at(verdicts: &[u64], i: usize) -> Verdict
    requires { VerdictsRoom verdicts.now × (i < level_count) }
    ensures { (f : Option Failure) → KeepsVerdict verdicts.now i f → verdict_of result ≡ map_some tell f }
{
    let clause = verdicts[i] as usize;
    if clause == 0 {
        return Ok(());
    }
    Err(FirstFailure {
        record: verdicts[RECORDS + i] as usize,
        clause,
        key: Key(verdicts[KEYS + i] as usize),
        version: VersionNumber(verdicts[VERSIONS + i] as usize),
    })
}

// The verdicts of all levels.
pub fn verdicts_from(verdicts: &[u64]) -> Verdicts
    requires { VerdictsRoom verdicts.now }
    ensures { (fs : Level → Option Failure) → KeepsVerdicts fs verdicts.now → verdicts_of result ≡ tell_all fs }
{
    Verdicts {
        mr: verdict_at(verdicts, 0),
        mw: verdict_at(verdicts, 1),
        ryw: verdict_at(verdicts, 2),
        wfr: verdict_at(verdicts, 3),
        cc: verdict_at(verdicts, 4),
        ua: verdict_at(verdicts, 5),
        psi: verdict_at(verdicts, 6),
        cp: verdict_at(verdicts, 7),
        si: verdict_at(verdicts, 8),
        ser: verdict_at(verdicts, 9),
    }
}
