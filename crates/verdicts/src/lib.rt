// The verdicts on a commit: which of the eight clauses fail it, and the first failure of each level. What clauses 3 to 8 want of the view before is gathered
// before the commit is made (clauses); it is judged when it is made and its view after is known to be a view, on the arrays that keep the store after it
// (report). The arrays are described in crates/state/specs.
#![tactic(auto)]

pub mod clauses;
mod missing;
pub mod report;
mod sources;
mod table;
pub mod told; // told.rt: the verdicts as they are answered

// The levels, in report order.
pub const LEVELS: usize = 10;

// Where the tables of the verdicts start, a word for each level, after the clauses; and how long they are together.
pub const RECORDS: usize = LEVELS;

pub const KEYS: usize = 2 * LEVELS;

pub const VERSIONS: usize = 3 * LEVELS;

pub const WORDS: usize = 4 * LEVELS;

// The numbers of all eight clauses, as a set.
pub const EVERY_CLAUSE: u64 = 510;

// The clauses that some level still asks for; the commits of which the view holds nothing, and where there are any the commits that those clauses want: those
// before what the view holds in SO (clause 3), those from which it was read (4), the writers of the keys written (5), and those that lead to it (6 and 7).
// What is wanted by a clause that no level asks for is not gathered.
#[derive(Clone, Copy)]
pub struct Wanted {
    pub live: u64,
    pub lacking: u64,
    pub before: u64,
    pub read: u64,
    pub written: u64,
    pub prefix: u64,
    pub snapshot: u64,
}

// The commits of which the view before a commit holds a version, those of which the view after does, and the commit's own number where it writes something.
#[derive(Clone, Copy)]
pub struct Held {
    pub before: u64,
    pub after: u64,
    pub own: u64,
}

// What is at hand where a commit is judged: the commits that the view before holds, the ranks of its operations, what clause 1 misses; for clause 2 the commit
// and those before it in SO, and the commits of which the view after holds nothing; and the commits that the others want.
#[derive(Clone, Copy)]
pub struct Hand {
    pub seen: u64,
    pub ranks: u64,
    pub lost: Option<state::Place>,
    pub session: u64,
    pub absent: u64,
    pub wanted: Wanted,
}
