// Little-endian numbers read from a slice of bytes and written into one: "Length first, little-endian" (01, The trace file).
// A place is counted from the slice's start. Each width is two of the width before it.
#![tactic(auto)]

ghost use Rattle.std.specs.Prelude.{◌≡◌, ◌+◌, ◌≤◌, ◌<◌, length};
ghost use Rattle.endian.specs.Endian.{le_at, le_bytes, put_at};

// The byte at a place, as a count.
pub fn byte_at(s: &[u8], at: usize) -> usize
    requires { at < length s.now }
    ensures { (result ≡ le_at s.now at 1) × (result < 256) }
{
    s[at] as usize
}

// The number in the two bytes from a place on.
pub fn u16_at(s: &[u8], at: usize) -> u16
    requires { at + 2 ≤ length s.now }
    ensures { result ≡ le_at s.now at 2 }
{
    (byte_at(s, at) + 256 * byte_at(s, at + 1)) as u16
}

// The number in the four bytes from a place on.
pub fn u32_at(s: &[u8], at: usize) -> u32
    requires { at + 4 ≤ length s.now }
    ensures { result ≡ le_at s.now at 4 }
{
    (u16_at(s, at) as u32) + 65536 * (u16_at(s, at + 2) as u32)
}

// The number in the eight bytes from a place on.
pub fn u64_at(s: &[u8], at: usize) -> u64
    requires { at + 8 ≤ length s.now }
    ensures { result ≡ le_at s.now at 8 }
{
    (u32_at(s, at) as u64) + 4294967296 * (u32_at(s, at + 4) as u64)
}

// Two bytes from a place on become those of v; the others stay.
pub fn put_u16(d: &mut [u8], at: usize, v: u16)
    requires { at + 2 ≤ length d.old }
    ensures { d.new ≡ put_at d.old at (le_bytes 2 v) }
{
    d[at] = (v % 256) as u8;
    d[at + 1] = (v / 256) as u8;
}

// Four bytes from a place on become those of v; the others stay.
pub fn put_u32(d: &mut [u8], at: usize, v: u32)
    requires { at + 4 ≤ length d.old }
    ensures { d.new ≡ put_at d.old at (le_bytes 4 v) }
{
    put_u16(d, at, (v % 65536) as u16);
    put_u16(d, at + 2, (v / 65536) as u16);
}

// Eight bytes from a place on become those of v; the others stay.
pub fn put_u64(d: &mut [u8], at: usize, v: u64)
    requires { at + 8 ≤ length d.old }
    ensures { d.new ≡ put_at d.old at (le_bytes 8 v) }
{
    put_u32(d, at, (v % 4294967296) as u32);
    put_u32(d, at + 4, (v / 4294967296) as u32);
}
