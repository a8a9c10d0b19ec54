// "A record is either read whole or the file is refused there" (01, The trace file). Within a record the checks come in the order
// of "Bench codes": "4 bytes left, kind 4, rest of 3, then 6, 7".
ghost use Rattle.std.specs.Prelude.{◌≡◌, List, Ok, ◌&&◌, ◌||◌, ℕ, ◌+◌, ◌*◌, ◌%◌, ◌≤◌, ◌<◌, length, eqb};
ghost use Rattle.search.specs.Choose.{choose};
ghost use Rattle.sets.specs.Set.{has};
ghost use Rattle.store.specs.Limits.{max_keys, max_commits};
ghost use Rattle.trace.specs.Listed.{keys_in};
ghost use Rattle.trace.specs.Format.{operations_at, rank_at, operation_fits, shift_at, commit_of, commit_at, short_shift_of, short_shift_at, short_commit_of, short_commit_at, commits_with};
ghost use Rattle.trace.specs.Meaning.{why_number, Reading, place_after, entry_of, Answers, RecordSays, InFormAt};
ghost use Rattle.trace.specs.Sorted.{ValuesFit, SortSays, reading_in, SortedInto};

// Why a record is refused, with the code of each; why_number gives it.
#[derive(Clone, Copy)]
pub enum Why {
    Length = 3,
    Kind = 4,
    Client = 6,
    Body = 7,
    Many = 8,
}

// The masks that a record lists, by rising key from the place `masks` on: of every key (kinds 2 and 3), of the keys in a set (kind 6), or of
// the keys with one of its operations, which are `count` and stand from a place on (kind 5). Places are counted from the file's start.
#[derive(Clone, Copy)]
pub enum Listing {
    Every {
        masks: usize,
    },
    Only {
        listed: u64,
        masks: usize,
    },
    Touched {
        operations: usize,
        count: usize,
        masks: usize,
    },
}

// What stands in a record; `operations` is a place.
#[derive(Clone, Copy)]
pub enum Record {
    Shift {
        client: usize,
        listing: Listing,
    },
    Commit {
        client: usize,
        count: usize,
        session: u32,
        operations: usize,
        listing: Listing,
    },
}

// A record that was read whole, and the place where the next one starts.
#[derive(Clone, Copy)]
pub struct Whole {
    pub record: Record,
    pub next: usize,
}

// "A record is either read whole or the file is refused there".
pub type Reading = Result<Whole, Why>;

// A record that was read whole, and where it is a commit the ranks of its operations, as a set.
#[derive(Clone, Copy)]
pub struct Sorted {
    pub whole: Whole,
    pub ranks: u64,
}

// The code of a refusal.
pub fn number(w: Why) -> usize
    ensures { result ≡ why_number w }
{
    w as usize
}

// Where the record after this one starts. A record that is refused has none after it: its own place is answered.
pub fn place_after(r: Reading, at: usize) -> usize
    ensures { result ≡ place_after r at }
{
    match r {
        Ok(whole) => whole.next,
        Err(_) => at,
    }
}

// How many commits there are up to a record and with it.
pub fn commits_with(r: Record, commits: usize) -> usize
    requires { commits ≤ max_commits }
    ensures { (s : List ℕ) (keys : ℕ) → result ≡ commits_with (entry_of s keys r) commits }
{
    match r {
        Record::Shift {
            client: _,
            listing: _,
        } => commits,
        Record::Commit {
            client: _,
            count: _,
            session: _,
            operations: _,
            listing: _,
        } => commits + 1,
    }
}

// "0 read or 1 write, key u8, zero u16, value u32": where the operation at a place fits and its rank is `low` or more, the least rank
// that the next one may have; 0 where not. The four bytes before the value are read as one number.
fn low_after(s: &[u8], at: usize, keys: usize, low: usize) -> usize
    requires { at + 8 ≤ length s.now }
    ensures { result ≡ choose (operation_fits s.now at keys low) (rank_at s.now at + 1) 0 }
{
    let w = endian::u32_at(s, at) as usize;
    let access = w % 256;
    let key = w / 256 % 256;
    let spare = w / 65536;
    if 1 < access {
        return 0;
    }
    if keys <= key {
        return 0;
    }
    if spare != 0 {
        return 0;
    }
    let rank = 2 * key + access;
    if rank < low {
        return 0;
    }
    rank + 1
}

// "Operations rise strictly by key and then kind": whether the m operations from a place on fit, each of a higher rank 2 * key + access than the one
// before. Where they do, the element of `values` at each of their ranks becomes the operation's value.
// By itself in the machine code: taken into record_at its loop keeps words in memory.
#[inline(never)]
pub fn sort(s: &[u8], start: usize, keys: usize, m: usize, values: &mut [u64]) -> Option<u64>
    requires { (start + 8 * m ≤ length s.now) × (keys ≤ max_keys) × (2 * max_keys ≤ length values.old) }
    ensures said { SortSays s.now start keys m values.new result }
    ensures small { ValuesFit values.old → ValuesFit values.new }
{
    let mut ranks: u64 = 0;
    let mut low: usize = 0;
    for i in 0..m {
        let at = start + 8 * i;
        low = low_after(s, at, keys, low);
        if low == 0 {
            return None;
        }
        let rank = low - 1;
        values[rank] = endian::u32_at(s, at + 4) as u64;
        ranks = ranks | (1u64 << rank);
    }
    Some(ranks)
}

// Of each key with an operation the first of its two ranks, 2 * key, by the ranks of the operations.
pub fn first_ranks(ranks: u64) -> u64
    ensures { (i : ℕ) → has result i ≡ (eqb (i % 2) 0 && (has ranks i || has ranks (i + 1))) }
{
    (ranks | (ranks >> 1)) & 0x5555_5555_5555_5555
}

// "Kind 2, view shift, length 6 + 8K for K keys: client u8, zero u8, K view masks u64."
fn shift_at(s: &[u8], at: usize, keys: usize, clients: usize) -> Reading
    requires { (at + 4 ≤ length s.now) × (keys ≤ max_keys) }
    ensures { Answers s.now keys clients (λ h. shift_at s.now h at) result }
{
    let size = 6 + 8 * keys;
    if endian::u16_at(s, at) as usize != size {
        return Err(Why::Length);
    }
    if s.len() < at + size {
        return Err(Why::Length);
    }
    let client = endian::byte_at(s, at + 4);
    if clients <= client {
        return Err(Why::Client);
    }
    if endian::byte_at(s, at + 5) != 0 {
        return Err(Why::Body);
    }
    let listing = Listing::Every { masks: at + 6 };
    let record = Record::Shift { client, listing };
    Ok(Whole {
        record,
        next: at + size,
    })
}

// A commit of m operations: what is tested of it once m is read.
fn commit_of(
    s: &[u8],
    at: usize,
    keys: usize,
    clients: usize,
    m: usize,
    values: &mut [u64],
) -> Result<Sorted, Why>
    requires { (at + 6 ≤ length s.now) × (keys ≤ max_keys) × (m < 256) × (2 * max_keys ≤ length values.old) }
    ensures said { Answers s.now keys clients (λ h. commit_of s.now h at m) (reading_in result) }
    ensures sorted { SortedInto s.now values.old values.new result }
{
    let size = 10 + 8 * m + 8 * keys;
    if endian::u16_at(s, at) as usize != size {
        return Err(Why::Length);
    }
    if s.len() < at + size {
        return Err(Why::Length);
    }
    let client = endian::byte_at(s, at + 4);
    if clients <= client {
        return Err(Why::Client);
    }
    let ranks = sort(s, at + 10, keys, m, values).ok_or(Why::Body)?;
    let listing = Listing::Every {
        masks: at + (10 + 8 * m),
    };
    let record = Record::Commit {
        client,
        count: m,
        session: endian::u32_at(s, at + 6),
        operations: at + 10,
        listing,
    };
    let whole = Whole {
        record,
        next: at + size,
    };
    Ok(Sorted { whole, ranks })
}

// "Kind 3, commit, length 10 + 8m + 8K: client u8, m u8, session number u32, m operations, K masks of the view after the commit."
fn commit_at(
    s: &[u8],
    at: usize,
    keys: usize,
    clients: usize,
    values: &mut [u64],
) -> Result<Sorted, Why>
    requires { (at + 4 ≤ length s.now) × (keys ≤ max_keys) × (2 * max_keys ≤ length values.old) }
    ensures said { Answers s.now keys clients (λ h. commit_at s.now h at) (reading_in result) }
    ensures sorted { SortedInto s.now values.old values.new result }
{
    if s.len() <= at + 5 {
        return Err(Why::Length);
    }
    commit_of(s, at, keys, clients, endian::byte_at(s, at + 5), values)
}

// "kind 6, a shift with a u32 set of changed keys .. and then those masks": what is tested of it once the set is read. "8 for each set bit":
// also for those at or above the number of keys, which are refused after the client.
fn short_shift_of(s: &[u8], at: usize, keys: usize, clients: usize, listed: u64) -> Reading
    requires { (at + 10 ≤ length s.now) × (keys ≤ max_keys) }
    ensures { Answers s.now keys clients (λ h. short_shift_of s.now h at listed) result }
{
    let size = endian::u16_at(s, at) as usize;
    if size != 10 + 8 * sets::size(listed) {
        return Err(Why::Length);
    }
    if s.len() < at + size {
        return Err(Why::Length);
    }
    let client = endian::byte_at(s, at + 4);
    if clients <= client {
        return Err(Why::Client);
    }
    if endian::byte_at(s, at + 5) != 0 {
        return Err(Why::Body);
    }
    if listed >> keys != 0 {
        return Err(Why::Body);
    }
    let listing = Listing::Only {
        listed,
        masks: at + 10,
    };
    let record = Record::Shift { client, listing };
    Ok(Whole {
        record,
        next: at + size,
    })
}

// "A set .. beyond the file's end is code 3."
fn short_shift_at(s: &[u8], at: usize, keys: usize, clients: usize) -> Reading
    requires { (at + 4 ≤ length s.now) × (keys ≤ max_keys) }
    ensures { Answers s.now keys clients (λ h. short_shift_at s.now h at) result }
{
    if s.len() < at + 10 {
        return Err(Why::Length);
    }
    short_shift_of(s, at, keys, clients, endian::u32_at(s, at + 6) as u64)
}

// How many of the m operations from a place on have a key that "differs from the one before (the first always counts)": no key is 256.
pub fn keys_in(s: &[u8], start: usize, m: usize) -> usize
    requires { (start + 8 * m ≤ length s.now) × (m < 256) }
    ensures { (result ≡ keys_in (operations_at s.now start m)) × (result ≤ m) }
{
    let mut count: usize = 0;
    let mut last: usize = 256;
    for i in 0..m {
        let key = endian::byte_at(s, start + 8 * i + 1);
        if key != last {
            count = count + 1;
        }
        last = key;
    }
    count
}

// How many keys the m operations from a place on have, as keys_in counts them: only those that do not fit are gone over again.
fn keys_counted(s: &[u8], start: usize, keys: usize, m: usize, sorted: Option<u64>) -> usize
    requires { (start + 8 * m ≤ length s.now) × (m < 256) × (keys ≤ max_keys) × ((values : List ℕ) × SortSays s.now start keys m values sorted) }
    ensures { (result ≡ keys_in (operations_at s.now start m)) × (result < 256) }
{
    match sorted {
        Some(ranks) => sets::size(first_ranks(ranks)),
        None => keys_in(s, start, m),
    }
}

// "kind 5, a commit whose view after lists only the keys with an operation": one of m operations, which are there.
fn short_commit_of(
    s: &[u8],
    at: usize,
    keys: usize,
    clients: usize,
    m: usize,
    values: &mut [u64],
) -> Result<Sorted, Why>
    requires { (at + (10 + 8 * m) ≤ length s.now) × (keys ≤ max_keys) × (m < 256) × (2 * max_keys ≤ length values.old) }
    ensures said { Answers s.now keys clients (λ h. short_commit_of s.now h at m (operations_at s.now (at + 10) m)) (reading_in result) }
    ensures sorted { SortedInto s.now values.old values.new result }
{
    let sorted = sort(s, at + 10, keys, m, values);
    let size = endian::u16_at(s, at) as usize;
    if size != 10 + 8 * m + 8 * keys_counted(s, at + 10, keys, m, sorted) {
        return Err(Why::Length);
    }
    if s.len() < at + size {
        return Err(Why::Length);
    }
    let client = endian::byte_at(s, at + 4);
    if clients <= client {
        return Err(Why::Client);
    }
    let ranks = sorted.ok_or(Why::Body)?;
    let listing = Listing::Touched {
        operations: at + 10,
        count: m,
        masks: at + (10 + 8 * m),
    };
    let record = Record::Commit {
        client,
        count: m,
        session: endian::u32_at(s, at + 6),
        operations: at + 10,
        listing,
    };
    let whole = Whole {
        record,
        next: at + size,
    };
    Ok(Sorted { whole, ranks })
}

// "an operation's key, beyond the file's end is code 3."
fn short_commit_at(
    s: &[u8],
    at: usize,
    keys: usize,
    clients: usize,
    values: &mut [u64],
) -> Result<Sorted, Why>
    requires { (at + 4 ≤ length s.now) × (keys ≤ max_keys) × (2 * max_keys ≤ length values.old) }
    ensures said { Answers s.now keys clients (λ h. short_commit_at s.now h at) (reading_in result) }
    ensures sorted { SortedInto s.now values.old values.new result }
{
    if s.len() <= at + 5 {
        return Err(Why::Length);
    }
    let m = endian::byte_at(s, at + 5);
    if s.len() < at + (10 + 8 * m) {
        return Err(Why::Length);
    }
    short_commit_of(s, at, keys, clients, m, values)
}

// A record without operations.
fn unsorted(whole: Whole) -> Sorted
    ensures { result ≡ record { whole = whole; ranks = 0 } }
{
    Sorted { whole, ranks: 0 }
}

// The record at a place of the file; where it is a commit its operations are sorted.
pub fn record_at(
    s: &[u8],
    at: usize,
    keys: usize,
    clients: usize,
    values: &mut [u64],
) -> Result<Sorted, Why>
    requires { (at ≤ length s.now) × (keys ≤ max_keys) × (2 * max_keys ≤ length values.old) }
    ensures said { RecordSays s.now at keys clients (reading_in result) }
    ensures sorted { SortedInto s.now values.old values.new result }
{
    if s.len() < at + 4 {
        return Err(Why::Length);
    }
    match endian::u16_at(s, at + 2) {
        2 => Ok(unsorted(shift_at(s, at, keys, clients)?)),
        3 => commit_at(s, at, keys, clients, values),
        5 => short_commit_at(s, at, keys, clients, values),
        6 => Ok(unsorted(short_shift_at(s, at, keys, clients)?)),
        _ => Err(Why::Kind),
    }
}

// The record at a place of the file, where its operations are not asked for.
pub fn reading_at(s: &[u8], at: usize, keys: usize, clients: usize) -> Reading
    requires { (at ≤ length s.now) × (keys ≤ max_keys) }
    ensures { RecordSays s.now at keys clients result }
{
    let mut values = [0u64; 2 * store::Store::KEYS];
    Ok(record_at(s, at, keys, clients, &mut values)?.whole)
}

// A record that is known to be in form, read again without a test.
pub fn known_at(s: &[u8], at: usize, keys: usize) -> Whole
    requires { (clients : ℕ) × InFormAt s.now at keys clients }
    ensures { (clients : ℕ) → InFormAt s.now at keys clients → RecordSays s.now at keys clients (Ok result) }
{
    let client = endian::byte_at(s, at + 4);
    let kind = endian::u16_at(s, at + 2);
    if kind == 2 {
        let listing = Listing::Every { masks: at + 6 };
        let record = Record::Shift { client, listing };
        return Whole {
            record,
            next: at + (6 + 8 * keys),
        };
    }
    if kind == 6 {
        let listing = Listing::Only {
            listed: endian::u32_at(s, at + 6) as u64,
            masks: at + 10,
        };
        let record = Record::Shift { client, listing };
        return Whole {
            record,
            next: at + endian::u16_at(s, at) as usize,
        };
    }
    let m = endian::byte_at(s, at + 5);
    let masks = at + (10 + 8 * m);
    let session = endian::u32_at(s, at + 6);
    if kind == 5 {
        let listing = Listing::Touched {
            operations: at + 10,
            count: m,
            masks,
        };
        let record = Record::Commit {
            client,
            count: m,
            session,
            operations: at + 10,
            listing,
        };
        return Whole {
            record,
            next: at + endian::u16_at(s, at) as usize,
        };
    }
    let listing = Listing::Every { masks };
    let record = Record::Commit {
        client,
        count: m,
        session,
        operations: at + 10,
        listing,
    };
    Whole {
        record,
        next: masks + 8 * keys,
    }
}
