// One view shift: "replaces a client's view by one that holds at least as much at every key; an equal one is allowed" (01, Store and
// views).
ghost use Rattle.std.specs.Prelude.{ℕ, ◌+◌, ◌*◌, ◌≤◌, ◌<◌, ◌≡◌, List, get_or};
ghost use Rattle.store.specs.Limits.{max_keys, max_clients};
ghost use Rattle.store.specs.Store.{View, Configuration, shift};
ghost use Rattle.store.specs.Update.{step};
ghost use Rattle.store.specs.Refusal.{refuses_event};
ghost use Rattle.state.specs.Room.{VersionsRoom, KeysRoom, ViewsRoom, SeenRoom, FreshRoom};
ghost use Rattle.state.specs.Keeps.{KeepsViews, KeepsMasks};
ghost use Rattle.trace.specs.Entry.{view_meant};
ghost use Rattle.trace.specs.Meaning.{listing_of, ListingFits};
ghost use Rattle.shifts.specs.Outcomes.{outcome_of, ShiftGiven};

use crate::masks;
use state::{Code, Refusal};
use trace::records::Listing;

// The masks in `fresh` are all versions that there are: no code is due, and they become the client's view, which holds all commits that wrote
// something.
fn whole_store(
    client: usize,
    keys: &[u64],
    views: &mut [u64],
    seen: &mut [u64],
    fresh: &[u64],
    n: usize,
) -> Result<(), Refusal>
    requires n_le_max_keys { (n ≤ max_keys) × (client < max_clients) × KeysRoom keys.now × ViewsRoom views.old × SeenRoom seen.old × FreshRoom fresh.now }
    requires by_index { (k : ℕ) → k < n → get_or fresh.now k 0 ≡ get_or keys.now (0 + k) 0 }
    ensures answer { (g : Configuration) (u : View) (versions : List ℕ) (i : ℕ) → ShiftGiven g u n versions keys.now views.old seen.old → KeepsMasks n u fresh.now
        → outcome_of result ≡ refuses_event i g (shift client u) }
    ensures kept { (g : Configuration) (u : View) (versions : List ℕ) → ShiftGiven g u n versions keys.now views.old seen.old → KeepsMasks n u fresh.now
        → result ≡ Ok tt → KeepsViews (step g (shift client u)) views.new seen.new }
{
    views::masks::keep(views, state::PER_CLIENT * client, fresh, n);
    seen[client] = views::held::all_writers(keys, n);
    Ok(())
}

// Codes 10, 11 and 12 of the masks in `fresh`, of the record of this number; where none is due, they become the client's view. The commonest masks, all versions that there are,
// are answered first.
fn shift_on(
    number: usize,
    client: usize,
    versions: &[u64],
    keys: &[u64],
    views: &mut [u64],
    seen: &mut [u64],
    fresh: &[u64],
    n: usize,
) -> Result<(), Refusal>
    requires le_n { (1 ≤ n) × (n ≤ max_keys) × (client < max_clients) }
    requires versions_room { VersionsRoom versions.now × KeysRoom keys.now × ViewsRoom views.old × SeenRoom seen.old × FreshRoom fresh.now }
    ensures answer { (g : Configuration) (u : View) → ShiftGiven g u n versions.now keys.now views.old seen.old → KeepsMasks n u fresh.now
        → outcome_of result ≡ refuses_event number g (shift client u) }
    ensures kept { (g : Configuration) (u : View) → ShiftGiven g u n versions.now keys.now views.old seen.old → KeepsMasks n u fresh.now
        → result ≡ Ok tt → KeepsViews (step g (shift client u)) views.new seen.new }
{
    if views::masks::same(fresh, keys, 0, n) {
        return whole_store(client, keys, views, seen, fresh, n);
    }
    let base = state::PER_CLIENT * client;
    let held = masks::sight(number, versions, keys, fresh, views, base, seen[client], n)?;
    if let Some(place) = views::masks::lost(fresh, views, base, n) {
        return Err(Refusal::of_version(Code::Lost as usize, number, place.key, place.version));
    }
    views::masks::keep(views, base, fresh, n);
    seen[client] = held;
    Ok(())
}

// Codes 10, 11 and 12 of what the record of this number lists, put over the client's view in `fresh`; where none is due, that becomes the client's view.
pub fn shift_to(
    file: &[u8],
    listing: Listing,
    number: usize,
    client: usize,
    versions: &[u64],
    keys: &[u64],
    views: &mut [u64],
    seen: &mut [u64],
    fresh: &mut [u64],
    n: usize,
) -> Result<(), Refusal>
    requires le_n { (1 ≤ n) × (n ≤ max_keys) × (client < max_clients) × ListingFits file.now n listing }
    requires versions_room { VersionsRoom versions.now × KeysRoom keys.now × ViewsRoom views.old × SeenRoom seen.old × FreshRoom fresh.old }
    ensures answer { (g : Configuration) → ShiftGiven g (view_meant g client (listing_of file.now n listing)) n versions.now keys.now views.old seen.old
        → outcome_of result ≡ refuses_event number g (shift client (view_meant g client (listing_of file.now n listing))) }
    ensures kept { (g : Configuration) → ShiftGiven g (view_meant g client (listing_of file.now n listing)) n versions.now keys.now views.old seen.old
        → result ≡ Ok tt → KeepsViews (step g (shift client (view_meant g client (listing_of file.now n listing)))) views.new seen.new }
{
    trace::contents::fill(file, listing, views, state::PER_CLIENT * client, fresh, n);
    shift_on(number, client, versions, keys, views, seen, fresh, n)
}
