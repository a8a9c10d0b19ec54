// The links between the commits of an image that is not misshapen, as rows of bits: row c is the set of the commits with a link to c.
// SO comes from the entries; WR, WW and RW from one pass over the versions of each key.
ghost use Rattle.std.specs.Prelude.{◌≡◌, true, ◌↔◌, ℕ, ◌+◌, ◌*◌, ◌^◌, ◌≤◌, ◌<◌, T, length};
ghost use Rattle.sets.specs.Set.{has};
ghost use Rattle.store.specs.Limits.{numbers, max_commits};
ghost use Rattle.ordering.specs.Links.{links};
ghost use Rattle.ordering.specs.Rows.{links_in, KeepLinks};
ghost use Rattle.store.specs.Reading.{image_commits, key_place, store_of};
ghost use Rattle.reading.specs.Parts.{entry_place, writer_at, KeyFits};
ghost use Rattle.reading.specs.Shape.{well_shaped};
ghost use Rattle.reading.specs.Gains.{Gains, Precedes, InSession, KeyLinks, versions_in};

// No links.
fn clear(rows: &mut [u64])
    requires { length rows.old ≡ numbers }
    ensures { (length rows.new ≡ numbers) × ((a c : ℕ) → ¬ T (links_in rows.new a c)) }
{
    rows.fill(0);
}

// Links to c from each commit of a set.
fn add(rows: &mut [u64], c: usize, from: u64)
    requires { (length rows.old ≡ numbers) × (c < numbers) }
    ensures { Gains rows.old rows.new (λ (a b : ℕ). (b ≡ c) × T (has from a)) }
{
    rows[c] = sets::union(rows[c], from);
}

// The entry at a place is of the client and has a smaller number.
fn precedes(image: &[u8], place: usize, client: usize, session: u32) -> bool
    requires { (place + 8 ≤ length image.now) × (length image.now < 2 ^ 32) }
    ensures { (result ≡ true) ↔ Precedes image.now place client session }
{
    if endian::byte_at(image, place) != client {
        return false;
    }
    endian::u32_at(image, place + 4) < session
}

// The commits of the session of entry t, which stands at a place, with a smaller number than it.
fn before(image: &[u8], step: usize, count: usize, t: usize, at: usize) -> u64
    requires { (8 ≤ step) × (count ≤ max_commits) × (0 < t) × (at ≡ entry_place step t) × (at + 8 ≤ length image.now) × (8 + step * count ≤ length image.now) × (length image.now < 2 ^ 32) }
    ensures { (a : ℕ) → T (has result a) ↔ InSession image.now step count a t }
{
    let client = endian::byte_at(image, at);
    let session = endian::u32_at(image, at + 4);
    let mut found = 0u64;
    let mut place: usize = 8;
    for a in 1..count + 1 {
        if precedes(image, place, client, session) {
            found = sets::insert(found, a);
        }
        place = place + step;
    }
    found
}

// SO, of commits with operations and without.
fn session_links(image: &[u8], step: usize, count: usize, rows: &mut [u64])
    requires { (8 ≤ step) × (count ≤ max_commits) × (8 + step * count ≤ length image.now) × (length image.now < 2 ^ 32) × (length rows.old ≡ numbers) }
    ensures { Gains rows.old rows.new (λ (a b : ℕ). (0 < b) × (b ≤ count) × InSession image.now step count a b) }
{
    let mut at: usize = 8;
    for t in 1..count + 1 {
        add(rows, t, before(image, step, count, t, at));
        at = at + step;
    }
}

// WR: from the writer of a version to each of its readers.
fn reader_links(rows: &mut [u64], writer: usize, readers: u64)
    requires { (length rows.old ≡ numbers) × (writer < numbers) }
    ensures { Gains rows.old rows.new (λ (a b : ℕ). (a ≡ writer) × T (has readers b)) }
{
    let from = sets::single(writer);
    for reader in sets::Members(readers) {
        add(rows, reader, from);
    }
}

// The versions of a key, n of them from a place on. Version 0 is by no commit, and its readers are before the writers of the others.
fn key_links(image: &[u8], base: usize, n: usize, rows: &mut [u64])
    requires n_nonzero { (0 < n) × (base + 16 * n ≤ length image.now) × (length image.now < 2 ^ 32) × (length rows.old ≡ numbers) }
    requires by_index { (i : ℕ) → i < n → writer_at image.now base i < numbers }
    ensures { Gains rows.old rows.new (KeyLinks image.now base n) }
{
    let mut earlier = endian::u64_at(image, base + 8);
    for i in 1..n {
        let at = base + 16 * i;
        let writer = endian::byte_at(image, at + 4);
        let readers = endian::u64_at(image, at + 8);
        let own = sets::single(writer);
        add(rows, writer, sets::without(earlier, own));
        reader_links(rows, writer, readers);
        earlier = sets::union(sets::union(earlier, readers), own);
    }
}

// The keys, n of them from a place on.
fn keys_links(image: &[u8], start: usize, n: usize, rows: &mut [u64])
    requires start_value { (start ≡ key_place image.now 0) × (length image.now < 2 ^ 32) × (length rows.old ≡ numbers) }
    requires by_index { ((k : ℕ) → k < n → KeyFits image.now (key_place image.now k) (image_commits image.now)) × (image_commits image.now ≤ max_commits) }
    ensures { Gains rows.old rows.new (λ (a b : ℕ). (k : ℕ) × (k < n) × KeyLinks image.now (key_place image.now k + 4) (versions_in image.now k) a b) }
{
    let mut at = start;
    for _ in 0..n {
        let count = endian::u32_at(image, at) as usize;
        key_links(image, at + 4, count, rows);
        at = at + (4 + 16 * count);
    }
}

// All links of the image; what the rows had does not matter.
pub fn fill(image: &[u8], rows: &mut [u64])
    requires { T (well_shaped image.now) × (length rows.old ≡ numbers) }
    ensures { (length rows.new ≡ numbers) × KeepLinks rows.new (links (store_of image.now)) }
{
    let n = endian::byte_at(image, 4);
    let count = endian::byte_at(image, 5);
    let step = 8 + 8 * n;
    clear(rows);
    session_links(image, step, count, rows);
    keys_links(image, 8 + step * count, n, rows);
}
