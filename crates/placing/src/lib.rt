// An order of commits, or a ring of their links, on words alone: row c of `rows` is the set of the commits with a link to c. "the lowest-numbered ready
// commit first each time (ready: all commits with a link to it are placed)" (02, E9); and where none is ready back along the links, until a commit comes
// again.
#![tactic(auto)]

ghost use Rattle.std.specs.Prelude.{◌≡◌, ℕ, ◌-◌, ◌≤◌, ◌<◌, length, get_or, take, drop, MatchOption};
ghost use Rattle.std.proofs.Math.Option.{some, none};
ghost use Rattle.std.proofs.Math.Dec.{T};
ghost use Rattle.endian.specs.Endian.{put_at};
ghost use Rattle.sets.specs.Set.{without};
ghost use Rattle.store.specs.Limits.{max_commits, numbers};
ghost use Rattle.ordering.specs.Links.{Between};
ghost use Rattle.ordering.specs.Shape.{commit_set};
ghost use Rattle.ordering.specs.Placing.{unplaced, lowest_ready, lowest_ready_first, placed_with};
ghost use Rattle.ordering.specs.Ring.{step_back, as_far_as, ring_from};
ghost use Rattle.ordering.specs.Judge.{order_or_ring, shown_commits};
ghost use Rattle.ordering.specs.Rows.{links_in};
ghost use Rattle.placing.specs.Answers.{shown_as};

// What was shown, and how many commits it has.
#[derive(Clone, Copy)]
pub enum Shown {
    Order(usize),
    Ring(usize),
}

// A part of a slice: the places from one up to another.
#[derive(Clone, Copy)]
struct Part {
    from: usize,
    to: usize,
}

// The commits that are not placed.
fn unplaced(n: usize, placed: u64) -> u64
    requires { n ≤ max_commits }
    ensures { result ≡ without (commit_set n) placed }
{
    sets::without(sets::without(sets::up_to(n), 1), placed)
}

// The lowest-numbered ready commit.
fn lowest_ready(rows: &[u64], n: usize, placed: u64) -> Option<usize>
    requires { (length rows.now ≡ numbers) × (n ≤ max_commits) × Between n (links_in rows.now) }
    ensures { MatchOption result (lowest_ready n (links_in rows.now) placed ≡ none) (λ c. (lowest_ready n (links_in rows.now) placed ≡ some c) × (c ≤ n)) }
{
    for c in sets::Members(unplaced(n, placed)) {
        if sets::without(rows[c], placed) == 0 {
            return Some(c);
        }
    }
    None
}

// Each time the lowest-numbered ready commit, one behind the other at the start of `order`: the set of those that are placed in the end.
fn place(rows: &[u64], n: usize, order: &mut [u8]) -> u64
    requires { (length rows.now ≡ numbers) × (n ≤ max_commits) × Between n (links_in rows.now) × (n ≤ length order.old) }
    ensures placed { result ≡ placed_with (lowest_ready_first n (links_in rows.now)) 0 }
    ensures written { order.new ≡ put_at order.old 0 (lowest_ready_first n (links_in rows.now)) }
{
    let mut placed = 0u64;
    for slot in order[..n].iter_mut() {
        let Some(c) = lowest_ready(rows, n, placed) else {
            return placed;
        };
        *slot = c as u8;
        placed = sets::insert(placed, c);
    }
    placed
}

// The lowest-numbered commit that has a link to c and is not placed. There is one.
fn step_back(rows: &[u64], c: usize, placed: u64) -> usize
    requires { (length rows.now ≡ numbers) × (c < numbers) × (0 < without (get_or rows.now c 0) placed) }
    ensures { ((n : ℕ) → Between n (links_in rows.now) → (result ≡ step_back n (links_in rows.now) placed c) × T (unplaced n placed result)) × (result < numbers) }
{
    let awaited = sets::without(rows[c], placed);
    sets::lowest(awaited)
}

// Where the part of `way` from `from` as far as c ends.
fn as_far_as(way: &[u8], from: usize, c: u8) -> usize
    requires { from ≤ length way.now }
    ensures { (from ≤ result) × (result ≤ length way.now) × (take (result - from) (drop from way.now) ≡ as_far_as c (drop from way.now)) }
{
    match way[from..].iter().position(|x| *x == c) {
        Some(i) => from + i + 1,
        None => way.len(),
    }
}

// Where no commit is ready: the ring that is found from `start`, which is not placed, as a part of `way`. The way back is written from the end of `way` on
// down, so that it stands in the order of its links.
fn walk_back(rows: &[u64], n: usize, placed: u64, start: usize, way: &mut [u8]) -> Part
    requires sizes { (length rows.now ≡ numbers) × (n ≤ max_commits) × Between n (links_in rows.now) × (length way.old ≡ numbers) }
    requires stuck { (lowest_ready n (links_in rows.now) placed ≡ none) × T (unplaced n placed start) }
    ensures within { (result.from ≤ result.to) × (result.to ≤ numbers) × (length way.new ≡ numbers) }
    ensures ring { take (result.to - result.from) (drop result.from way.new) ≡ ring_from n (links_in rows.now) placed start }
{
    let last = store::Store::COMMITS;
    way[last] = start as u8;
    let mut passed = sets::single(start);
    let mut c = start;
    for at in (last - n..last).rev() {
        let back = step_back(rows, c, placed);
        if sets::has(passed, back) {
            let from = at + 1;
            let to = as_far_as(way, from, back as u8);
            return Part { from, to };
        }
        way[at] = back as u8;
        passed = sets::insert(passed, back);
        c = back;
    }
    Part {
        from: last - n,
        to: store::Store::NUMBERS,
    }
}

// An order of n commits, or a ring, at the start of `out`; later bytes keep what they had.
pub fn order_or_ring(rows: &[u64], n: usize, out: &mut [u8]) -> Shown
    requires { (length rows.now ≡ numbers) × (n ≤ max_commits) × Between n (links_in rows.now) × (max_commits ≤ length out.old) }
    ensures shown { result ≡ shown_as (order_or_ring n (links_in rows.now)) }
    ensures written { out.new ≡ put_at out.old 0 (shown_commits (order_or_ring n (links_in rows.now))) }
{
    let mut list = [0u8; store::Store::NUMBERS];
    let placed = place(rows, n, &mut list);
    let left = unplaced(n, placed);
    if left == 0 {
        let count = text::put_bytes(out, 0, &list[..n]);
        return Shown::Order(count);
    }
    let start = sets::lowest(left);
    let part = walk_back(rows, n, placed, start, &mut list);
    let from = part.from;
    let to = part.to;
    let count = text::put_bytes(out, 0, &list[from..to]);
    Shown::Ring(count)
}
