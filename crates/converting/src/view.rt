// What a record means for the view of its client, and the keys at which that changes.
ghost use Rattle.std.specs.Prelude.{◌≡◌, ℕ, ◌+◌, ◌^◌, ◌≤◌, ◌<◌, length};
ghost use Rattle.store.specs.Limits.{max_keys};
ghost use Rattle.store.specs.Store.{View};
ghost use Rattle.trace.specs.Edition.{changed};
ghost use Rattle.state.specs.Rows.{RowAt};
ghost use Rattle.converting.specs.Parts.{client_in, listing_in};

use trace::records::{Listing, Record};

// The client of a record.
pub fn client_of(x: Record) -> usize
    ensures { result ≡ client_in x }
{
    match x {
        Record::Shift { client, listing: _ } => client,
        Record::Commit {
            client,
            count: _,
            session: _,
            operations: _,
            listing: _,
        } => client,
    }
}

// What it lists of that client's view.
pub fn listing_of(x: Record) -> Listing
    ensures { result ≡ listing_in x }
{
    match x {
        Record::Shift { client: _, listing } => listing,
        Record::Commit {
            client: _,
            count: _,
            session: _,
            operations: _,
            listing,
        } => listing,
    }
}

// "exactly the keys that change": those at which the view in the row of `views` from `base` on and the one in `fresh` differ.
pub fn differing(views: &[u64], base: usize, fresh: &[u64], n: usize) -> u64
    requires { (n ≤ max_keys) × (base + n ≤ length views.now) × (n ≤ length fresh.now) }
    ensures { (before u : View) → RowAt n views.now base before → RowAt n fresh.now 0 u → result ≡ changed n before u }
{
    let mut listed: u64 = 0;
    for (k, mask) in fresh[..n].iter().enumerate() {
        if *mask != views[base + k] {
            listed = sets::insert(listed, k);
        }
    }
    listed
}
