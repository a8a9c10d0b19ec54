// Code 20, "a misshapen image" (02, E9). Each function tests one part of the image: its first 8 bytes, an entry, a key.
ghost use Rattle.std.specs.Prelude.{◌≡◌, true, ◌↔◌, ℕ, ◌+◌, ◌*◌, ◌^◌, ◌≤◌, ◌<◌, length, MatchOption};
ghost use Rattle.endian.specs.Endian.{le_at};
ghost use Rattle.store.specs.Limits.{max_keys, max_commits};
ghost use Rattle.ordering.specs.Shape.{commit_set};
ghost use Rattle.store.specs.Reading.{image_keys, image_commits, key_place};
ghost use Rattle.reading.specs.Parts.{entry_place, NewEntry, EntryFits, VersionsFit, key_end, KeyFits, BodyFits};
ghost use Rattle.reading.specs.Shape.{well_shaped};

// The entry at a place has the client and the number.
fn is_entry(image: &[u8], place: usize, client: usize, session: u32) -> bool
    requires { (place + 8 ≤ length image.now) × (length image.now < 2 ^ 32) }
    ensures { (result ≡ true) ↔ ((le_at image.now place 1 ≡ client) × (le_at image.now (place + 4) 4 ≡ session)) }
{
    if endian::byte_at(image, place) != client {
        return false;
    }
    endian::u32_at(image, place + 4) == session
}

// Entry t stands at a place: "two entries of equal client and number" are not it and an earlier one.
fn is_new(image: &[u8], step: usize, t: usize, at: usize) -> bool
    requires { (0 < t) × (8 ≤ step) × (at ≡ entry_place step t) × (at + 8 ≤ length image.now) × (length image.now < 2 ^ 32) }
    ensures { (result ≡ true) ↔ NewEntry image.now step t }
{
    let client = endian::byte_at(image, at);
    let session = endian::u32_at(image, at + 4);
    let mut place: usize = 8;
    for _ in 1..t {
        if is_entry(image, place, client, session) {
            return false;
        }
        place = place + step;
    }
    true
}

// The entries: "client above 15", "spare not zero", "two entries of equal client and number". The client and the three bytes behind it
// are read as one number.
fn entries_fit(image: &[u8], step: usize, count: usize) -> bool
    requires { (8 ≤ step) × (count ≤ max_commits) × (8 + step * count ≤ length image.now) × (length image.now < 2 ^ 32) }
    ensures { (result ≡ true) ↔ ((t : ℕ) → 0 < t → t ≤ count → EntryFits image.now step t) }
{
    let mut at: usize = 8;
    for t in 1..count + 1 {
        if (store::Store::CLIENTS as u32) <= endian::u32_at(image, at) {
            return false;
        }
        if !is_new(image, step, t, at) {
            return false;
        }
        at = at + step;
    }
    true
}

// The n versions from a place on: writers and readers "among the commits", no commit "twice as writer or twice as reader of a key". A set
// of all writers holds as many as there are versions exactly where none wrote twice; readers are counted in the same way. The
// writer and the three spare bytes behind it are read as one number.
fn versions_fit(image: &[u8], base: usize, n: usize, commits: usize, among: u64) -> bool
    requires { (commits ≤ max_commits) × (among ≡ commit_set commits) × (base + 16 * n ≤ length image.now) × (length image.now < 2 ^ 32) }
    ensures { (result ≡ true) ↔ VersionsFit image.now base n commits }
{
    let mut writers = 0u64;
    let mut readers = 0u64;
    let mut count: usize = 0;
    for i in 0..n {
        let at = base + 16 * i;
        let w = endian::u32_at(image, at + 4) as usize;
        if commits < w {
            return false;
        }
        let read = endian::u64_at(image, at + 8);
        if sets::without(read, among) != 0 {
            return false;
        }
        writers = sets::insert(writers, w);
        readers = sets::union(readers, read);
        count = count + sets::size(read);
    }
    if sets::size(writers) != n {
        return false;
    }
    sets::size(readers) == count
}

// The key that stands at a place: where it ends, if it is not misshapen. "version 0 not (0, opening)": its value, writer and spare
// bytes are read as one number.
fn key_end(image: &[u8], at: usize, commits: usize, among: u64) -> Option<usize>
    requires { (commits ≤ max_commits) × (among ≡ commit_set commits) × (at ≤ length image.now) × (length image.now < 2 ^ 32) }
    ensures { MatchOption result (¬ KeyFits image.now at commits) (λ e. (e ≡ key_end image.now at) × KeyFits image.now at commits) }
{
    let long = image.len();
    if long < at + 20 {
        return None;
    }
    let n = endian::u32_at(image, at) as usize;
    let end = at + (4 + 16 * n);
    if long < end {
        return None;
    }
    if n == 0 {
        return None;
    }
    if endian::u64_at(image, at + 4) != 0 {
        return None;
    }
    if !versions_fit(image, at + 4, n, commits, among) {
        return None;
    }
    Some(end)
}

// The keys, from a place on: they fill the rest of the image exactly.
fn keys_fit(image: &[u8], start: usize, n: usize, commits: usize, among: u64) -> bool
    requires { (commits ≤ max_commits) × (among ≡ commit_set commits) × (start ≡ key_place image.now 0) × (start ≤ length image.now) × (length image.now < 2 ^ 32) }
    ensures { (result ≡ true) ↔ (((k : ℕ) → k < n → KeyFits image.now (key_place image.now k) commits) × (key_place image.now n ≡ length image.now)) }
{
    let mut at = start;
    for _ in 0..n {
        let Some(end) = key_end(image, at, commits, among) else {
            return false;
        };
        at = end;
    }
    at == image.len()
}

// What follows the first 8 bytes: the entries of the commits, and the keys.
fn body_fits(image: &[u8], n: usize, count: usize) -> bool
    requires { (n ≡ image_keys image.now) × (count ≡ image_commits image.now) × (n ≤ max_keys) × (count ≤ max_commits) × (8 ≤ length image.now) × (length image.now < 2 ^ 32) }
    ensures { (result ≡ true) ↔ BodyFits image.now }
{
    let step = 8 + 8 * n;
    let start = 8 + step * count;
    if image.len() < start {
        return false;
    }
    if !entries_fit(image, step, count) {
        return false;
    }
    keys_fit(
        image,
        start,
        n,
        count,
        sets::without(sets::below(count + 1), 1),
    )
}

// Whether the bytes are an image: where not, code 20 is due.
pub fn shape(image: &[u8]) -> bool
    ensures { result ≡ well_shaped image.now }
{
    let long = image.len();
    if long < 8 {
        return false;
    }
    if endian::u32_at(image, 0) as usize != long {
        return false;
    }
    let n = endian::byte_at(image, 4);
    if n == 0 {
        return false;
    }
    if store::Store::KEYS < n {
        return false;
    }
    let count = endian::byte_at(image, 5);
    if store::Store::COMMITS < count {
        return false;
    }
    if endian::u16_at(image, 6) != 0 {
        return false;
    }
    body_fits(image, n, count)
}
