// "The reader of records keeps hold of the file together with its own place in it" (01, The trace file). Each function over a reader
// is thin: it takes the reader apart, and records::reading_at, on the slice and the number, does the work.
ghost use Rattle.std.specs.Prelude.{◌≡◌, ◌≤◌, length};
ghost use Rattle.store.specs.Limits.{max_keys};
ghost use Rattle.trace.specs.Meaning.{place_after, RecordSays};

use crate::records;
use crate::records::Reading;

#[derive(Drop)]
pub struct Reader<'a> {
    pub src: &'a [u8],
    pub at: usize,
}

// A reader of a file, at a place in it.
pub fn new<'a>(src: &'a [u8], at: usize) -> Reader<'a>
    ensures { (result.src ≡ src.entry) × (result.at ≡ at) }
{
    Reader { src, at }
}

// The record at the reader's place. Where it was read whole the reader stands at the next one, and where not it stays.
pub fn next<'s, 'a>(r: &'s mut Reader<'a>, keys: usize, clients: usize) -> Reading
    requires { (r.old.at ≤ length r.old.src.now) × (keys ≤ max_keys) }
    ensures { RecordSays r.old.src.now r.old.at keys clients result × (r.new ≡ record { src = r.old.src; at = place_after result r.old.at }) }
{
    let x = records::reading_at(r.src, r.at, keys, clients);
    r.at = records::place_after(x, r.at);
    x
}
