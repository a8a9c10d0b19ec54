// Views as masks: the masks of a record against the store and the client's present view (codes 10 to 12 and 14), the first version that a
// clause misses, and the commits of which a view holds a version. The arrays are described in crates/state/specs.
#![tactic(auto)]

ghost use Rattle.std.specs.Prelude.{◌≡◌, ℕ, ◌<◌};

mod apart;
pub mod held;
pub mod masks;
pub mod missing;
mod prefix;

// The words of all keys together; 0 where each is. All keys are looked at, with no branch.
fn gathered<F: Fn(usize) -> u64>(n: usize, word: F) -> u64
    requires { (k : ℕ) → k < n → F.pre word k }
    ensures none { result ≡ 0 → (k : ℕ) → k < n → F.post word k 0 }
    ensures each { ((k w : ℕ) → k < n → F.post word k w → w ≡ 0) → result ≡ 0 }
{
    let mut all = 0u64;
    for k in 0..n {
        all = sets::union(all, word(k));
    }
    all
}
