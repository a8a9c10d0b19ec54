// What stands in a record that was read whole: its masks, and its operations by their place in the order of the file.
ghost use Rattle.std.specs.Prelude.{◌≡◌, ℕ, ◌+◌, ◌*◌, ◌≤◌, ◌<◌, T, length, get_or};
ghost use Rattle.search.specs.Search.{how_many};
ghost use Rattle.sets.specs.Set.{has, size};
ghost use Rattle.endian.specs.Endian.{le_at};
ghost use Rattle.store.specs.Limits.{max_keys};
ghost use Rattle.trace.specs.Entry.{listed_or};
ghost use Rattle.trace.specs.Listed.{listed_at, touched};
ghost use Rattle.trace.specs.Format.{operations_at};
ghost use Rattle.trace.specs.Meaning.{listing_of, ListingFits, OperationsFit};
ghost use Rattle.trace.specs.Sorted.{SortedAs, touched_by, ListsBy};

use crate::records::{Listing, first_ranks, sort};

// "K view masks u64": the first n elements of `masks` become the n masks that stand at a place; the others stay.
pub fn masks_into(s: &[u8], start: usize, masks: &mut [u64], n: usize)
    requires { (start + 8 * n ≤ length s.now) × (n ≤ length masks.old) }
    ensures read { (k : ℕ) → k < n → get_or masks.new k 0 ≡ le_at s.now (start + 8 * k) 8 }
    ensures kept { (k : ℕ) → n ≤ k → get_or masks.new k 0 ≡ get_or masks.old k 0 }
{
    for (k, mask) in masks[..n].iter_mut().enumerate() {
        *mask = endian::u64_at(s, start + 8 * k);
    }
}

// The first n elements of `masks` become those that `views` has from `base` on; the others stay.
fn row_into(views: &[u64], base: usize, masks: &mut [u64], n: usize)
    requires { (base + n ≤ length views.now) × (n ≤ length masks.old) }
    ensures read { (k : ℕ) → k < n → get_or masks.new k 0 ≡ get_or views.now (base + k) 0 }
    ensures kept { (k : ℕ) → n ≤ k → get_or masks.new k 0 ≡ get_or masks.old k 0 }
{
    for (k, mask) in masks[..n].iter_mut().enumerate() {
        *mask = views[base + k];
    }
}

// The elements of `masks` at the numbers in `listed` become the masks that stand at a place, in turn; the others stay.
fn listed_into(s: &[u8], start: usize, listed: u64, masks: &mut [u64])
    requires { (start + 8 * size listed ≤ length s.now) × ((k : ℕ) → T (has listed k) → k < length masks.old) }
    ensures { (k : ℕ) → get_or masks.new k 0 ≡ listed_or (listed_at s.now start (has listed) k) (get_or masks.old k 0) }
{
    let mut at = start;
    for k in sets::Members(listed) {
        masks[k] = endian::u64_at(s, at);
        at = at + 8;
    }
}

// "the keys with an operation", of the m operations from a place on, as a set.
pub fn touched_keys(s: &[u8], start: usize, m: usize) -> u64
    requires { (keys : ℕ) × (keys ≤ max_keys) × OperationsFit s.now keys start m }
    ensures { (k : ℕ) → has result k ≡ touched (operations_at s.now start m) k }
{
    let mut listed: u64 = 0;
    for i in 0..m {
        listed = sets::insert(listed, endian::byte_at(s, start + 8 * i + 1));
    }
    listed
}

// What a record lists put over its client's view, which `views` has from `base` on: "A key that it does not list keeps what the client's view
// has there". The first n elements of `masks` become that; the others stay. Where every key is listed no view is looked at.
pub fn fill(s: &[u8], l: Listing, views: &[u64], base: usize, masks: &mut [u64], n: usize)
    requires { ListingFits s.now n l × (base + n ≤ length views.now) × (n ≤ length masks.old) × (n ≤ max_keys) }
    ensures read { (k : ℕ) → k < n → get_or masks.new k 0 ≡ listed_or (listing_of s.now n l k) (get_or views.now (base + k) 0) }
    ensures kept { (k : ℕ) → n ≤ k → get_or masks.new k 0 ≡ get_or masks.old k 0 }
{
    match l {
        Listing::Every { masks: start } => masks_into(s, start, masks, n),
        Listing::Only {
            listed,
            masks: start,
        } => {
            if listed == sets::below(n) {
                masks_into(s, start, masks, n)
            } else {
                row_into(views, base, masks, n);
                listed_into(s, start, listed, masks)
            }
        }
        Listing::Touched {
            operations,
            count,
            masks: start,
        } => {
            let listed = touched_keys(s, operations, count);
            row_into(views, base, masks, n);
            listed_into(s, start, listed, masks)
        }
    }
}

// The operations of a commit that is known to be in form, sorted as records::sort does: answers the set of their ranks.
pub fn sort_operations(s: &[u8], start: usize, keys: usize, m: usize, values: &mut [u64]) -> u64
    requires { OperationsFit s.now keys start m × (keys ≤ max_keys) × (2 * max_keys ≤ length values.old) }
    ensures { SortedAs s.now start m result values.new }
{
    sort(s, start, keys, m, values).unwrap()
}

// The elements of `masks` at the keys with an operation, by the ranks of the operations, become the masks that stand at a place, in turn; the others stay.
fn touched_into(s: &[u8], start: usize, ranks: u64, masks: &mut [u64])
    requires { (start + 8 * how_many max_keys (touched_by ranks) ≤ length s.now) × ((k : ℕ) → T (touched_by ranks k) → k < length masks.old) }
    ensures { (k : ℕ) → get_or masks.new k 0 ≡ listed_or (listed_at s.now start (touched_by ranks) k) (get_or masks.old k 0) }
{
    let mut at = start;
    for twice in sets::Members(first_ranks(ranks)) {
        masks[twice / 2] = endian::u64_at(s, at);
        at = at + 8;
    }
}

// What a commit lists put over its client's view as fill does, where the ranks of its operations are known. Where it lists the masks of the keys with an
// operation, as kind 5 does, its operations are not looked at again.
pub fn commit_into(
    s: &[u8],
    ranks: u64,
    l: Listing,
    views: &[u64],
    base: usize,
    masks: &mut [u64],
    n: usize,
)
    requires listing_fits { ListingFits s.now n l × ListsBy s.now ranks l × (n ≤ max_keys) }
    requires n_in_bounds { (base + n ≤ length views.now) × (n ≤ length masks.old) }
    ensures { (k : ℕ) → k < n → get_or masks.new k 0 ≡ listed_or (listing_of s.now n l k) (get_or views.now (base + k) 0) }
{
    let listing = l;
    if let Listing::Touched {
        operations: _,
        count: _,
        masks: start,
    } = listing
    {
        row_into(views, base, masks, n);
        touched_into(s, start, ranks, masks);
        return;
    }
    fill(s, l, views, base, masks, n);
}
