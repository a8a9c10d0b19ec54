// Writes the image of the store into a lent buffer, from the arrays in which the judge keeps the store (01, The image).
// The words of the arrays are the rows of the image: a version is its head and its readers, a commit is one word and the masks of the view that it was
// judged from.
// What a function writes is said of every store that the arrays keep (state's specs/Keeps.antt).
#![tactic(auto)]

ghost use Rattle.std.specs.Prelude.{◌≡◌, ℕ, suc, ◌+◌, ◌*◌, ◌≤◌, ◌<◌, length};
ghost use Rattle.endian.specs.Endian.{put_at, pieces};
ghost use Rattle.store.specs.Limits.{max_keys, max_commits, numbers, per_key, max_image};
ghost use Rattle.store.specs.Store.{Store, count};
ghost use Rattle.store.specs.Image.{commit_bytes, key_bytes, image, ClientsFit};
ghost use Rattle.store.specs.Reading.{commit_size};
ghost use Rattle.store.specs.Sound.{SoundStore};
ghost use Rattle.state.specs.Room.{VersionsRoom, KeysRoom, CommitsRoom, ViewsRoom};
ghost use Rattle.state.specs.Keeps.{KeepsVersions, KeepsKeys, KeepsCommits, KeepsStored};
ghost use Rattle.imaging.specs.Parts.{head_bytes, keys_size, whole_size};

use state::{CommitNumber, Key};

// How many bytes so many commits take in the image of n keys.
fn commits_size(n: usize, count: usize) -> usize
    requires { (n ≤ max_keys) × (count ≤ max_commits) }
    ensures { (result ≡ commit_size n * count) × (result ≤ commit_size max_keys * max_commits) }
{
    (8 + 8 * n) * count
}

// How many bytes the image of n keys and `count` commits takes. The full mask of a key has a member for each of its versions.
pub fn size(keys: &[u64], n: usize, count: usize) -> usize
    requires { KeysRoom keys.now × (n ≤ max_keys) × (count ≤ max_commits) }
    ensures value { (result ≡ whole_size keys.now n count) × (result ≤ max_image) }
    ensures value_2 { (s : Store) → KeepsKeys s keys.now → s.keys ≡ n → s.commits ≡ count → result ≡ length (image s) }
{
    let mut sum: usize = 8 + commits_size(n, count);
    for full in &keys[..n] {
        sum = sum + (4 + 16 * sets::size(*full));
    }
    sum
}

// The first 8 bytes: "u32 length, keys u8, commits u8, two zeros".
fn write_head(buffer: &mut [u8], n: usize, count: usize, whole: usize)
    requires { (8 ≤ length buffer.old) × (n ≤ max_keys) × (count ≤ max_commits) × (whole ≤ max_image) }
    ensures { buffer.new ≡ put_at buffer.old 0 (head_bytes whole n count) }
{
    endian::put_u32(buffer, 0, whole as u32);
    endian::put_u16(buffer, 4, (n + 256 * count) as u16);
    endian::put_u16(buffer, 6, 0);
}

// Commit t of a store of n keys, into the part of the image that starts at the commit's offset: how many bytes it takes.
fn write_commit(part: &mut [u8], commits: &[u64], views: &[u64], t: CommitNumber, n: usize) -> usize
    requires { CommitsRoom commits.now × ViewsRoom views.now × (t.0 < numbers) × (n ≤ max_keys) × (commit_size n ≤ length part.old) }
    ensures value { result ≡ commit_size n }
    ensures part_after { (s : Store) → KeepsCommits s commits.now → KeepsStored s views.now → ClientsFit s → s.keys ≡ n
        → 0 < t.0 → t.0 ≤ s.commits → part.new ≡ put_at part.old 0 (commit_bytes s t.0) }
{
    let at = t.0;
    endian::put_u64(part, 0, commits[at]);
    writing::put_masks(
        part,
        8,
        views,
        state::CLIENT_ROWS + state::PER_CLIENT * at,
        n,
    );
    8 + 8 * n
}

// The commits in order, behind the first 8 bytes, each into its own stretch of the lent image.
fn write_commits(buffer: &mut [u8], commits: &[u64], views: &[u64], n: usize, count: usize)
    requires { CommitsRoom commits.now × ViewsRoom views.now × (n ≤ max_keys) × (count ≤ max_commits) × (8 + commit_size n * count ≤ length buffer.old) }
    ensures { (s : Store) → KeepsCommits s commits.now → KeepsStored s views.now → ClientsFit s → s.keys ≡ n → s.commits ≡ count
        → buffer.new ≡ put_at buffer.old 8 (pieces count (λ i. commit_bytes s (suc i))) }
{
    let mut at: usize = 8;
    for i in 0..count {
        let took = write_commit(&mut buffer[at..], commits, views, CommitNumber(i + 1), n);
        at = at + took;
    }
}

// The n versions of key k, into the part of the image that starts at the key's offset: how many bytes they take.
fn write_key(part: &mut [u8], versions: &[u64], k: Key, n: usize) -> usize
    requires { VersionsRoom versions.now × (k.0 < max_keys) × (n ≤ per_key) × (4 + 16 * n ≤ length part.old) }
    ensures value { result ≡ 4 + 16 * n }
    ensures part_after { (s : Store) → KeepsVersions s versions.now → SoundStore s → s.commits ≤ max_commits → count s k.0 ≡ n
        → part.new ≡ put_at part.old 0 (key_bytes s k.0) }
{
    endian::put_u32(part, 0, n as u32);
    for i in 0..n {
        let from = state::PER_KEY * k.0 + i;
        let to = 4 + 16 * i;
        endian::put_u64(part, to, versions[from]);
        endian::put_u64(part, to + 8, versions[state::READERS + from]);
    }
    4 + 16 * n
}

// The keys in order, from `start` on: "Each key's versions go into their own stretch of the lent image". One function for the commits and the keys would ask for
// two closures that repeat the contracts of write_commit and write_key, where each loop has three lines.
fn write_keys(buffer: &mut [u8], versions: &[u64], keys: &[u64], n: usize, start: usize)
    requires versions_room { VersionsRoom versions.now × KeysRoom keys.now × (n ≤ max_keys) }
    requires n_in_bounds { start + keys_size keys.now n ≤ length buffer.old }
    ensures { (s : Store) → KeepsVersions s versions.now → KeepsKeys s keys.now
        → SoundStore s → s.commits ≤ max_commits → s.keys ≡ n
        → buffer.new ≡ put_at buffer.old start (pieces n (key_bytes s)) }
{
    let mut at = start;
    for (k, full) in keys[..n].iter().enumerate() {
        let took = write_key(&mut buffer[at..], versions, Key(k), sets::size(*full));
        at = at + took;
    }
}

// The image, at the start of the buffer: "bytes after the image keep what they had".
pub fn write(
    buffer: &mut [u8],
    versions: &[u64],
    keys: &[u64],
    commits: &[u64],
    views: &[u64],
    n: usize,
    count: usize,
    whole: usize,
)
    requires versions_room { VersionsRoom versions.now × KeysRoom keys.now × CommitsRoom commits.now × ViewsRoom views.now }
    requires n_le_max_keys { (n ≤ max_keys) × (count ≤ max_commits) × (whole ≡ whole_size keys.now n count) × (whole ≤ max_image) × (whole ≤ length buffer.old) }
    ensures { (s : Store) → KeepsVersions s versions.now → KeepsKeys s keys.now → KeepsCommits s commits.now
        → KeepsStored s views.now → SoundStore s → ClientsFit s → s.keys ≡ n → s.commits ≡ count
        → buffer.new ≡ put_at buffer.old 0 (image s) }
{
    write_head(buffer, n, count, whole);
    write_commits(buffer, commits, views, n, count);
    write_keys(buffer, versions, keys, n, 8 + commits_size(n, count));
}
