// The store as the code keeps it: its limits, named once ("Sizes of a rack", 01), and the opening one. What a store means is in specs/;
// what each array says of a store is in crates/state (specs/Places.antt, specs/Keeps.antt).
#![tactic(auto)]

ghost use Rattle.std.specs.Prelude.{◌≡◌, [], ◌∷◌, ◌+◌, ◌*◌, replicate};
ghost use Rattle.store.specs.Limits.{max_keys, max_clients, max_commits, numbers, per_key, min_bytes, max_bytes, max_image, max_replay};

#[derive(Drop)]
pub struct Store {
    // Of each version its value and writer; then of each its readers; then of each commit the versions that it wrote, key by key.
    pub versions: [u64; 2 * (Store::VERSIONS * Store::KEYS) + Store::NUMBERS * Store::KEYS],
    // Of each key the mask of all its versions; then of each the set of its writers.
    pub keys: [u64; 2 * Store::KEYS],
    // Of each client the set of commits of which its view holds a version.
    pub seen: [u64; Store::CLIENTS],
    // Of each client the set of its commits, the set of the writers that they read from, and the least free session number.
    pub sessions: [u64; 3 * Store::CLIENTS],
    // Of each commit its client and session number; the commits before it in its session; the writers that it and these read from.
    pub commits: [u64; 3 * Store::NUMBERS],
    // The links of clauses 6 and 7; of each commit what is noted of its links; the last commit whose links are entered.
    pub links: [u64; 2 * Store::NUMBERS + 2 * Store::KEYS + 5 * Store::NUMBERS + 1],
}

impl Store {
    pub const KEYS: usize = 32;

    pub const CLIENTS: usize = 16;

    pub const COMMITS: usize = 63;
    // A file is at most so long, and at least its own length and a header.
    pub const BYTES: usize = 65536;

    pub const HEADER: usize = 12;
    // A key has at most the opening version and one by each commit; commit numbers begin with the opening transaction's, 0.
    pub const VERSIONS: usize = Store::COMMITS + 1;

    pub const NUMBERS: usize = Store::COMMITS + 1;
    // An image is at most so long.
    pub const IMAGE: usize = 8
        + Store::COMMITS * (8 + 8 * Store::KEYS)
        + Store::KEYS * (4 + 16 * Store::VERSIONS);
    // The file of a replay is at most so long.
    pub const REPLAY: usize = Store::HEADER + Store::COMMITS * (16 + 32 * Store::KEYS);

    // The constants are the limits of specs/Limits.antt. Nothing calls this: it is here for its promise, which holds no longer where a limit
    // is changed in one of the two places alone.
    pub fn limits() -> [usize; 9]
        ensures { result ≡ max_keys ∷ max_clients ∷ max_commits ∷ per_key ∷ numbers ∷ max_bytes ∷ min_bytes ∷ max_image ∷ max_replay ∷ [] }
    {
        [
            Store::KEYS,
            Store::CLIENTS,
            Store::COMMITS,
            Store::VERSIONS,
            Store::NUMBERS,
            Store::BYTES,
            Store::HEADER,
            Store::IMAGE,
            Store::REPLAY,
        ]
    }

    // "At the start each list is version 0: value 0, writer the opening transaction (number 0), no readers". The views, "{0} at each key", are an array that
    // a call makes itself: it is the longest that does not begin with 0, and would be copied out of this.
    pub fn opening() -> Store
        ensures versions { result.versions ≡ replicate (2 * (per_key * max_keys) + numbers * max_keys) 0 }
        ensures keys { result.keys ≡ replicate (2 * max_keys) 1 }
        ensures seen { result.seen ≡ replicate max_clients 1 }
        ensures commits { (result.sessions ≡ replicate (3 * max_clients) 0) × (result.commits ≡ replicate (3 * numbers) 0) × (result.links ≡ replicate (2 * numbers + 2 * max_keys + 5 * numbers + 1) 0) }
    {
        Store {
            versions: [0; 2 * (Store::VERSIONS * Store::KEYS) + Store::NUMBERS * Store::KEYS],
            keys: [1; 2 * Store::KEYS],
            seen: [1; Store::CLIENTS],
            sessions: [0; 3 * Store::CLIENTS],
            commits: [0; 3 * Store::NUMBERS],
            links: [0; 2 * Store::NUMBERS + 2 * Store::KEYS + 5 * Store::NUMBERS + 1],
        }
    }
}
