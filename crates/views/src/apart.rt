// The commits by which a view differs from another: those that wrote a version that it holds and the other lacks. They are found commit by commit: where one of
// these versions is met, all that its writer wrote is taken at once.
ghost use Rattle.std.specs.Prelude.{◌≡◌, ℕ, ◌+◌, ◌<◌, ◌≤◌, T, length};
ghost use Rattle.sets.specs.Set.{has};
ghost use Rattle.store.specs.Limits.{max_keys, numbers};
ghost use Rattle.store.specs.Store.{View, Store};
ghost use Rattle.state.specs.Places.{owned_place};
ghost use Rattle.state.specs.Room.{VersionsRoom};
ghost use Rattle.state.specs.Keeps.{IsSet};
ghost use Rattle.state.specs.Rows.{RowAt};
ghost use Rattle.views.specs.Parted.{minus, Versions, Parted, Parting, PartedAt, Subtracted, RowTaken, LackedBelow};

use state::{CommitNumber, Key};

// The commits with a version in a set of versions, and those of them with another version, which is not in it.
#[derive(Clone, Copy)]
pub struct Writers {
    pub all: u64,
    pub half: u64,
}

// What the masks at `base` hold and those at `other` do not, of each key; answers that of all keys together. All keys are looked at, with no branch.
fn subtract(
    masks: &[u64],
    base: usize,
    others: &[u64],
    other: usize,
    left: &mut [u64],
    n: usize,
) -> u64
    requires { (n ≤ max_keys) × (base + n ≤ length masks.now) × (other + n ≤ length others.now) × (length left.old ≡ max_keys) }
    ensures { Subtracted masks.now base others.now other n left.new result }
{
    let mut any = 0u64;
    for k in 0..n {
        let word = sets::without(masks[base + k], others[other + k]);
        left[k] = word;
        any = sets::union(any, word);
    }
    any
}

// What commit t wrote is taken out of the versions that are left; answers what these lack of it, of all keys together. All keys are looked at, with no branch.
fn take_row(versions: &[u64], left: &mut [u64], t: CommitNumber, n: usize) -> u64
    requires { (n ≤ max_keys) × VersionsRoom versions.now × (length left.old ≡ max_keys) × (t.0 < numbers) }
    ensures { RowTaken versions.now (owned_place t.0 0) n left.old left.new × IsSet result (LackedBelow versions.now (owned_place t.0 0) left.old n) }
{
    let row = state::OWNED + state::PER_COMMIT * t.0;
    let mut lacks = 0u64;
    for k in 0..n {
        let own = versions[row + k];
        let word = left[k];
        lacks = sets::union(lacks, sets::without(own, word));
        left[k] = sets::without(word, own);
    }
    lacks
}

// The commits with a version of key k that is left, added to those that were found. What is met is passed whatever the rows hold, so that the loop ends.
fn take_key(versions: &[u64], left: &mut [u64], k: Key, n: usize, found: Writers) -> Writers
    requires { (n ≤ max_keys) × VersionsRoom versions.now × (length left.old ≡ max_keys) × (k.0 < n) }
    ensures { (length left.new ≡ max_keys)
        × ((s : Store) (d : View) → Versions s d n versions.now → Parting s d n left.old found.all found.half
        → Parting s d n left.new result.all result.half × ((t : ℕ) → T (has found.all t) → T (has result.all t)) × PartedAt s d result.all k.0) }
{
    let i = k.0;
    let mut all = found.all;
    let mut half = found.half;
    let mut met = left[i];
    while met != 0 {
        let v = sets::lowest(met);
        let t = state::writer_of(versions[state::PER_KEY * i + v]);
        let lacks = take_row(versions, left, t, n);
        all = sets::insert(all, t.0);
        if lacks != 0 {
            half = sets::insert(half, t.0);
        }
        met = left[i] & sets::rest(met);
    }
    Writers { all, half }
}

// The commits with a version that is left, of any key.
fn take_all(versions: &[u64], left: &mut [u64], n: usize) -> Writers
    requires { (n ≤ max_keys) × VersionsRoom versions.now × (length left.old ≡ max_keys) }
    ensures { (s : Store) (d : View) → Versions s d n versions.now → RowAt n left.old 0 d → Parted s d result.all result.half }
{
    let mut found = Writers { all: 0, half: 0 };
    for k in 0..n {
        found = take_key(versions, left, Key(k), n, found);
    }
    found
}

// The commits with a version that the view at `base` holds and the one at `other` does not; and those of them with another version.
pub fn beyond(
    versions: &[u64],
    masks: &[u64],
    base: usize,
    others: &[u64],
    other: usize,
    n: usize,
) -> Writers
    requires { (n ≤ max_keys) × VersionsRoom versions.now × (base + n ≤ length masks.now) × (other + n ≤ length others.now) }
    ensures { (s : Store) (a b : View) → Versions s (minus a b) n versions.now → RowAt n masks.now base a → RowAt n others.now other b
        → Parted s (minus a b) result.all result.half }
{
    let mut left = [0u64; store::Store::KEYS];
    if subtract(masks, base, others, other, &mut left, n) == 0 {
        return Writers { all: 0, half: 0 };
    }
    take_all(versions, &mut left, n)
}
