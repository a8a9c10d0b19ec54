// The numbers of the store, kept from being swapped by accident, answers that name a key or a version, where the tables of the arrays start,
// and what the loops of several crates share: the keys to go over, and sets gathered from rows. The arrays in which the judge keeps a
// configuration are described in specs/Places.antt (where things stand), specs/Room.antt (how long they are) and specs/Keeps.antt (what they
// say).
#![tactic(auto)]

ghost use Rattle.std.specs.Prelude.{◌≡◌, ◌+◌, ◌≤◌, ◌<◌, length};
ghost use Rattle.sets.specs.Set.{highest};
ghost use Rattle.store.specs.Limits.{max_keys};
ghost use Rattle.state.specs.Places.{per_key, numbers, writer_in};
ghost use Rattle.store.specs.Refusal.{refuse, refuse_key, refuse_place, refuse_read};
ghost use Rattle.state.specs.Accesses.{Left};
ghost use Rattle.state.specs.Answers.{visible_of, refusal_of};
ghost use Rattle.state.specs.Lookup.{visible_in};
ghost use Rattle.state.specs.Room.{VersionsRoom};
ghost use Rattle.state.specs.Keeps.{IsSet};
ghost use Rattle.state.specs.Rows.{InRows};

use store::Store;

// The number of a key.
#[derive(Clone, Copy)]
pub struct Key(pub usize);

// The number of a version of a key.
#[derive(Clone, Copy)]
pub struct VersionNumber(pub usize);

// The number of a commit; the opening transaction is 0.
#[derive(Clone, Copy)]
pub struct CommitNumber(pub usize);

// ---- where the tables start, in the order of specs/Places.antt; what is not named starts at 0

// versions: a row for each key, of heads; then as many rows of readers; then a row for each commit number.
pub const PER_KEY: usize = Store::VERSIONS;

pub const READERS: usize = PER_KEY * Store::KEYS;

pub const OWNED: usize = 2 * READERS;

pub const PER_COMMIT: usize = Store::KEYS;

// keys: the sets of writers, after the full masks.
pub const WRITERS: usize = Store::KEYS;

// views: a row for each client; then a row for each commit number.
pub const PER_CLIENT: usize = Store::KEYS;

pub const CLIENT_ROWS: usize = Store::CLIENTS * PER_CLIENT;

pub const VIEWS: usize = CLIENT_ROWS + Store::NUMBERS * PER_CLIENT;

// sessions: the writers that the commits of each client read from, and the least session number that is free, after its commits.
pub const DRAWN: usize = Store::CLIENTS;

pub const BAR: usize = 2 * Store::CLIENTS;

// commits: the commits before each in its session, and the writers that it and these read from, after the log.
pub const BEFORE: usize = Store::NUMBERS;

pub const READ_FROM: usize = 2 * Store::NUMBERS;

// links: the rows of clause 7, after those of clause 6; then what the readers of each key bring along, for clause 6 and for clause 7; then a row for each commit
// of what is noted of its links, and the last commit whose links are entered.
pub const SNAPSHOT_LINKS: usize = Store::NUMBERS;

pub const LEADS: usize = 2 * Store::NUMBERS;

pub const SNAPSHOT_LEADS: usize = LEADS + Store::KEYS;

pub const NOTE: usize = 5;

pub const NOTES: usize = LEADS + 2 * Store::KEYS;

pub const ENTERED: usize = NOTES + NOTE * Store::NUMBERS;

// The record at hand: so many masks, and so many values.
pub const FRESH: usize = Store::KEYS;

pub const VALUES: usize = 2 * Store::KEYS;

// ---- answers

// What a refusal is about, with the number of each as docs/FORMAT.md has it: what a record means (9 to 14), what was asked for (15 on), or a file that is too
// long (1). The other faults of a file's form have their numbers from crates/trace.
#[derive(Clone, Copy)]
pub enum Code {
    FileLength = 1,
    SessionNumber = 9,
    Mask = 10,
    HalfHeld = 11,
    Lost = 12,
    Read = 13,
    Stray = 14,
    ImageRoom = 15,
    NotSerial = 16,
    Room = 17,
    Closed = 18,
    NoImage = 20,
    Rows = 21,
    TooLong = 22,
}

// A refusal: its number, and the record, key, version and writer that it names (0 where not named).
#[derive(Clone, Copy)]
pub struct Refusal {
    pub code: usize,
    pub record: usize,
    pub key: Key,
    pub version: VersionNumber,
    pub writer: CommitNumber,
}

// The newest version that a view holds of a key: what a read of the key sees.
#[derive(Clone, Copy)]
pub struct Visible {
    pub value: u64,
    pub version: VersionNumber,
    pub writer: CommitNumber,
}

// Refusals are made here alone, so that what a refusal has more one day is said in one place.
impl Refusal {
    // One that names its record alone.
    pub fn of_record(code: usize, number: usize) -> Refusal
        ensures { refusal_of result ≡ refuse code number }
    {
        Refusal {
            code,
            record: number,
            key: Key(0),
            version: VersionNumber(0),
            writer: CommitNumber(0),
        }
    }

    // One that names a key.
    pub fn of_key(code: usize, number: usize, key: Key) -> Refusal
        ensures { refusal_of result ≡ refuse_key code number key.0 }
    {
        Refusal {
            code,
            record: number,
            key,
            version: VersionNumber(0),
            writer: CommitNumber(0),
        }
    }

    // One that names a version of a key.
    pub fn of_version(code: usize, number: usize, key: Key, version: VersionNumber) -> Refusal
        ensures { refusal_of result ≡ refuse_place code number (record { key = key.0; version = version.0 }) }
    {
        Refusal {
            code,
            record: number,
            key,
            version,
            writer: CommitNumber(0),
        }
    }

    // Code 13: a read of a key names the version that it sees, and its writer.
    pub fn of_read(number: usize, key: Key, sees: Visible) -> Refusal
        ensures { refusal_of result ≡ refuse_read number (record { key = key.0; sees = visible_of sees }) }
    {
        let version = sees.version;
        let writer = sees.writer;
        Refusal {
            code: Code::Read as usize,
            record: number,
            key,
            version,
            writer,
        }
    }
}

// A version of a key.
#[derive(Clone, Copy)]
pub struct Place {
    pub key: Key,
    pub version: VersionNumber,
}

// A read with another value than that of the version that it sees: its key, and what it sees.
#[derive(Clone, Copy)]
pub struct WrongRead {
    pub key: Key,
    pub sees: Visible,
}

// ---- what words say

const NUMBERS: u64 = Store::NUMBERS as u64;

// The writer in the head of a version.
pub fn writer_of(head: u64) -> CommitNumber
    ensures { (result.0 ≡ writer_in head) × (result.0 < numbers) }
{
    CommitNumber(((head >> 32) % NUMBERS) as usize)
}

// The number of the newest version in a mask, and 0 where it holds none.
pub fn newest(mask: u64) -> VersionNumber
    ensures { (result.0 ≡ highest mask) × (result.0 < per_key) }
{
    VersionNumber(sets::highest(mask | 1))
}

// "The lookup of the newest visible version must answer value, version and writer" (02, E13): of key k, in a view that has this mask there.
pub fn newest_visible(versions: &[u64], mask: u64, k: Key) -> Visible
    requires { VersionsRoom versions.now × (k.0 < max_keys) }
    ensures seen { visible_of result ≡ visible_in versions.now mask k.0 }
    ensures small { (result.version.0 < per_key) × (result.writer.0 < numbers) }
{
    let version = newest(mask);
    let head = versions[PER_KEY * k.0 + version.0];
    Visible {
        value: head % 0x1_0000_0000,
        version,
        writer: writer_of(head),
    }
}

// ---- what loops share

// The keys below n that have an operation of this access (0 for reads, 1 for writes), as the set of twice their numbers. A loop over it
// costs what there is to do, where a loop over all keys would ask of each.
pub fn keys_with(ranks: u64, access: usize, n: usize) -> u64
    requires { (access < 2) × (n ≤ max_keys) }
    ensures { Left ranks access n 0 result }
{
    (ranks >> access) & 0x5555_5555_5555_5555 & sets::below(2 * n)
}

// All that is in the rows of the members of a set; the row of number t stands at from + t.
pub fn gather(rows: &[u64], from: usize, set: u64) -> u64
    requires { from + numbers ≤ length rows.now }
    ensures { IsSet result (InRows rows.now from set) }
{
    let mut all = 0u64;
    for t in sets::Members(set) {
        all = sets::union(all, rows[from + t]);
    }
    all
}

// What is gathered from the rows of two parts of an array.
#[derive(Clone, Copy)]
pub struct Gathered {
    pub first: u64,
    pub second: u64,
}

// All that is in the rows of the members of a set, of two parts of an array at once; the rows of number t stand at one + t and two + t.
pub fn gather_two(rows: &[u64], one: usize, two: usize, set: u64) -> Gathered
    requires { (one + numbers ≤ length rows.now) × (two + numbers ≤ length rows.now) }
    ensures { IsSet result.first (InRows rows.now one set) × IsSet result.second (InRows rows.now two set) }
{
    let mut first = 0u64;
    let mut second = 0u64;
    for t in sets::Members(set) {
        first = sets::union(first, rows[one + t]);
        second = sets::union(second, rows[two + t]);
    }
    Gathered { first, second }
}
