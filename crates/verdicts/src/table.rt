// The table of levels.
ghost use Rattle.std.specs.Prelude.{◌≡◌, ◌<◌};
ghost use Rattle.store.specs.Limits.{numbers};
ghost use Rattle.levels.specs.Level.{clauses_of};
ghost use Rattle.verdicts.specs.Verdicts.{level_count, level_at, numbers_of, VerdictsRoom, Live};

// The clauses of each level in report order, as sets of their numbers.
const CLAUSES: [u64; crate::LEVELS] = [2, 8, 4, 16, 30, 32, 62, 70, 166, 256];

// The clauses of a level, by its place in report order.
pub fn clauses_of(level: usize) -> u64
    requires { level < level_count }
    ensures { result ≡ numbers_of (clauses_of (level_at level)) }
{
    CLAUSES[level]
}

// The clauses of the levels that have not failed. "A level keeps its first failure", so no other clause is asked for any longer.
pub fn live(verdicts: &[u64]) -> u64
    requires { VerdictsRoom verdicts.now }
    ensures { Live verdicts.now result }
{
    let mut all = 0u64;
    for level in 0..crate::LEVELS {
        if verdicts[level] == 0 {
            all = sets::union(all, clauses_of(level));
        }
    }
    all
}
