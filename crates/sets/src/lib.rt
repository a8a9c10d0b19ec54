// Sets of numbers below 64, each in a u64: bit i stands for i. What each function answers is a definition of specs/Set.antt.
#![tactic(auto)]

ghost use Rattle.std.specs.Prelude.{◌≡◌, ◌+◌, ◌<◌, ◌≤◌, MatchOption};
ghost use Rattle.std.specs.Iterator.{at_most};
ghost use Rattle.sets.specs.Set.{has, single, insert, union, without, below, highest, lowest, size, Gives};

// Whether the set holds i.
pub fn has(m: u64, i: usize) -> bool
    requires { i < 64 }
    ensures { result ≡ has m i }
{
    (m >> i) & 1 == 1
}

// The set of i alone.
pub fn single(i: usize) -> u64
    requires { i < 64 }
    ensures { result ≡ single i }
{
    1u64 << i
}

// The set with i in it.
pub fn insert(m: u64, i: usize) -> u64
    requires { i < 64 }
    ensures { result ≡ insert i m }
{
    m | single(i)
}

// What either set holds.
pub fn union(a: u64, b: u64) -> u64
    ensures { result ≡ union a b }
{
    a | b
}

// What `a` holds and `b` does not.
pub fn without(a: u64, b: u64) -> u64
    ensures { result ≡ without a b }
{
    a & !b
}

// All numbers below n.
pub fn below(n: usize) -> u64
    requires { n ≤ 64 }
    ensures { result ≡ below n }
{
    if n == 64 {
        0xffff_ffff_ffff_ffff
    } else {
        (1u64 << n) - 1
    }
}

// All numbers up to i.
pub fn up_to(i: usize) -> u64
    requires { i < 64 }
    ensures { result ≡ below (i + 1) }
{
    let last = single(i);
    (last - 1) | last
}

// The greatest number that the set holds.
pub fn highest(m: u64) -> usize
    requires { 0 < m }
    ensures { (result ≡ highest m) × (result < 64) }
{
    63 - u64::leading_zeros(m) as usize
}

// The least number that the set holds.
pub fn lowest(m: u64) -> usize
    requires { 0 < m }
    ensures { (result ≡ lowest m) × (result < 64) }
{
    u64::trailing_zeros(m) as usize
}

// The set without its least number; a lesser number, so that a loop over a set ends.
pub fn rest(m: u64) -> u64
    requires { 0 < m }
    ensures { (result ≡ without m (single (lowest m))) × (result < m) }
{
    m & (m - 1)
}

// How many numbers the set holds.
pub fn size(m: u64) -> usize
    ensures { (result ≡ size m) × (result ≤ 64) }
{
    u64::count_ones(m) as usize
}

// The numbers that a set holds, from the least on; the set that is left.
#[derive(Drop)]
pub struct Members(pub u64);

impl Iterator for Members {
    type Item = usize;

    ghost next_gives = { λ old r new. MatchOption r ((old.0 ≡ 0) × (new.0 ≡ 0)) (λ i. Gives old.0 i new.0) };

    ghost remaining = { λ s. at_most s.0 };

    fn next(&mut self) -> Option<usize> {
        if self.0 == 0 {
            return None;
        }
        let i = lowest(self.0);
        self.0 = rest(self.0);
        Some(i)
    }
}
