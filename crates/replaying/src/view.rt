// The masks of a full view, "every version of each key" (01, The words of demand 3), as commits go by.
ghost use Rattle.std.specs.Prelude.{◌≡◌, ℕ, ◌+◌, ◌*◌, ◌^◌, ◌≤◌, ◌<◌, eqb, length, get_or};
ghost use Rattle.search.specs.Choose.{choose};
ghost use Rattle.store.specs.Limits.{max_keys};
ghost use Rattle.replaying.specs.Full.{grown_mask};

// A mask with the next version in it where `more` is 1, and as it is where that is 0. There is no branch here, since nothing would foretell it.
fn with_next(mask: u64, more: u64) -> u64
    requires { (mask < 2 ^ 63) × (more < 2) }
    ensures { result ≡ choose (eqb more 1) (2 * mask + 1) mask }
{
    mask + more * (mask + 1)
}

// After a commit with operations of these ranks, each key that it wrote has one version more.
pub fn grow(full: &mut [u64], ranks: u64, n: usize)
    requires { (n ≤ max_keys) × (n ≤ length full.old) × ((k : ℕ) → k < n → get_or full.old k 0 < 2 ^ 63) }
    ensures { (k : ℕ) → k < n → get_or full.new k 0 ≡ grown_mask ranks k (get_or full.old k 0) }
{
    for (k, mask) in full[..n].iter_mut().enumerate() {
        *mask = with_next(*mask, (ranks >> (2 * k + 1)) % 2);
    }
}
