// The rows of visibility (02, E14) from an image: each from the masks of its commit and the writers of all versions.
#![tactic(auto)]

ghost use Rattle.std.specs.Prelude.{◌≡◌, ℕ, ◌+◌, ◌*◌, ◌^◌, ◌≤◌, ◌<◌, T, length};
ghost use Rattle.endian.specs.Endian.{put_at};
ghost use Rattle.store.specs.Limits.{numbers};
ghost use Rattle.store.specs.Reading.{image_commits, key_place, store_of};
ghost use Rattle.reading.specs.Parts.{writer_at};
ghost use Rattle.reading.specs.Shape.{well_shaped};
ghost use Rattle.visible.specs.Visible.{rows};
ghost use Rattle.gathering.specs.Places.{Gathers, WroteHeld, WroteSeen, KeyReads};

// The writers of those versions of a key that the mask holds, of n that stand from a place on.
fn writers_held(image: &[u8], base: usize, n: usize, mask: u64) -> u64
    requires n_le_numbers { (n ≤ numbers) × (base + 16 * n ≤ length image.now) × (length image.now < 2 ^ 32) }
    requires by_index { (i : ℕ) → i < n → writer_at image.now base i < numbers }
    ensures { Gathers result (WroteHeld image.now base n mask) }
{
    let mut found = 0u64;
    for i in 0..n {
        if sets::has(mask, i) {
            found = sets::insert(found, endian::byte_at(image, base + 16 * i + 4));
        }
    }
    found
}

// The writers of all versions that masks hold: the keys, n of them, stand from one place on, and their masks from another.
fn writers_seen(image: &[u8], start: usize, n: usize, masks: usize) -> u64
    requires start_value { (start ≡ key_place image.now 0) × (masks + 8 * n ≤ length image.now) × (length image.now < 2 ^ 32) }
    requires by_index { (k : ℕ) → k < n → KeyReads image.now (key_place image.now k) }
    ensures { Gathers result (WroteSeen image.now masks n) }
{
    let mut found = 0u64;
    let mut at = start;
    for k in 0..n {
        let count = endian::u32_at(image, at) as usize;
        let mask = endian::u64_at(image, masks + 8 * k);
        found = sets::union(found, writers_held(image, at + 4, count, mask));
        at = at + (4 + 16 * count);
    }
    found
}

// The rows of the commits of an image, at the start of a table; "bit 0 never": the opening transaction is none of them.
pub fn fill(image: &[u8], table: &mut [u64])
    requires { T (well_shaped image.now) × (image_commits image.now ≤ length table.old) }
    ensures { table.new ≡ put_at table.old 0 (rows (store_of image.now)) }
{
    let n = endian::byte_at(image, 4);
    let count = endian::byte_at(image, 5);
    let step = 8 + 8 * n;
    let start = 8 + step * count;
    let mut masks: usize = 16;
    for row in table[..count].iter_mut() {
        *row = sets::without(writers_seen(image, start, n, masks), 1);
        masks = masks + step;
    }
}
