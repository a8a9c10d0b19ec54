// The masks of a record, against the store and the client's present view: "A view holds version 0 of each key, only versions that exist,
// and all versions of a writer if it holds one" (01, Store and views).
ghost use Rattle.std.specs.Prelude.{◌+◌, ◌≤◌, length};
ghost use Rattle.store.specs.Limits.{max_keys};
ghost use Rattle.store.specs.Store.{View, Store};
ghost use Rattle.state.specs.Room.{VersionsRoom, KeysRoom, FreshRoom};
ghost use Rattle.views.specs.Viewed.{NewMasks};
ghost use Rattle.shifts.specs.Outcomes.{SightSays};

use state::{Code, Refusal};

// Codes 10 and 11, for the record of this number, and the commits of which the masks hold a version. The client's view stands at `base` and holds the
// commits `seen`.
pub fn sight(
    number: usize,
    versions: &[u64],
    keys: &[u64],
    fresh: &[u64],
    views: &[u64],
    base: usize,
    seen: u64,
    n: usize,
) -> Result<u64, Refusal>
    requires { (1 ≤ n) × (n ≤ max_keys) × VersionsRoom versions.now × KeysRoom keys.now × FreshRoom fresh.now × (base + n ≤ length views.now) }
    ensures { (s : Store) (old u : View) → NewMasks s old u n versions.now keys.now views.now base seen fresh.now
        → SightSays number s u result }
{
    if let Some(k) = views::masks::bad_mask(fresh, keys, n) {
        return Err(Refusal::of_key(Code::Mask as usize, number, k));
    }
    views::held::viewed(versions, keys, fresh, views, base, seen, n).map_err(
        |half| Refusal::of_version(Code::HalfHeld as usize, number, half.key, half.version),
    )
}
