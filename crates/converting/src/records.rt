// The records of a file in form, one after another: what each means is put over its client's view, it is written in an edition, and the views go on to
// the next. No store is kept: what a record means hangs on the views alone.
ghost use Rattle.std.specs.Prelude.{◌≡◌, ℕ, ◌+◌, ◌*◌, ◌≤◌, ◌<◌, length};
ghost use Rattle.endian.specs.Endian.{put_at};
ghost use Rattle.store.specs.Limits.{max_keys, min_bytes};
ghost use Rattle.store.specs.Store.{Configuration, opening};
ghost use Rattle.store.specs.Update.{step};
ghost use Rattle.trace.specs.Result.{taken};
ghost use Rattle.trace.specs.Entry.{event};
ghost use Rattle.trace.specs.Format.{Trace, decode};
ghost use Rattle.trace.specs.Meaning.{entry_of, WholeFile};
ghost use Rattle.trace.specs.Edition.{record_bytes, records_bytes, encode_in};
ghost use Rattle.state.specs.Room.{ClientRowsRoom, FreshRoom};
ghost use Rattle.converting.specs.Answers.{edition_of};
ghost use Rattle.converting.specs.Parts.{PartsFit, ViewRows, longest_record};

use crate::{Edition, kinds, view};
use store::Store;
use trace::form::Header;
use trace::records::Record;

// How long a record is in an edition. The views become those after it.
fn one_length(
    edition: Edition,
    file: &[u8],
    x: Record,
    views: &mut [u64],
    fresh: &mut [u64],
    n: usize,
) -> usize
    requires { (n ≤ max_keys) × PartsFit file.now n x × ClientRowsRoom views.old × FreshRoom fresh.old }
    ensures few { result ≤ longest_record }
    ensures reckoned { (g : Configuration) → ViewRows g n views.old → result ≡ length (record_bytes (edition_of edition) n g (event g (entry_of file.now n x))) }
    ensures on { (g : Configuration) → ViewRows g n views.old → ViewRows (step g (event g (entry_of file.now n x))) n views.new }
{
    let base = state::PER_CLIENT * view::client_of(x);
    trace::contents::fill(file, view::listing_of(x), views, base, fresh, n);
    let size = kinds::length_in(edition, file, x, views, base, fresh, n);
    views::masks::keep(views, base, fresh, n);
    size
}

// How many bytes the file has in an edition.
pub fn size(edition: Edition, file: &[u8], h: Header) -> usize
    requires { WholeFile file.now h }
    ensures { (t : Trace) → decode file.now ≡ taken t → result ≡ length (encode_in (edition_of edition) t) }
{
    let mut views = [1u64; state::CLIENT_ROWS];
    let mut fresh = [0u64; state::FRESH];
    let mut sum = Store::HEADER;
    let mut at = Store::HEADER;
    for _ in 0..h.records {
        let known = trace::records::known_at(file, at, h.keys);
        let record = known.record;
        sum = sum + one_length(edition, file, record, &mut views, &mut fresh, h.keys);
        at = known.next;
    }
    sum
}

// A record in an edition, from `at` on: where the next one starts. The views become those after it.
fn write_one(
    edition: Edition,
    file: &[u8],
    x: Record,
    buffer: &mut [u8],
    at: usize,
    views: &mut [u64],
    fresh: &mut [u64],
    n: usize,
) -> usize
    requires n_le_max_keys { (n ≤ max_keys) × PartsFit file.now n x × ClientRowsRoom views.old × FreshRoom fresh.old }
    requires view_rows { (g : Configuration) × ViewRows g n views.old × (at + length (record_bytes (edition_of edition) n g (event g (entry_of file.now n x))) ≤ length buffer.old) }
    ensures next { (g : Configuration) → ViewRows g n views.old → result ≡ at + length (record_bytes (edition_of edition) n g (event g (entry_of file.now n x))) }
    ensures put { (g : Configuration) → ViewRows g n views.old
        → buffer.new ≡ put_at buffer.old at (record_bytes (edition_of edition) n g (event g (entry_of file.now n x))) }
    ensures on { (g : Configuration) → ViewRows g n views.old → ViewRows (step g (event g (entry_of file.now n x))) n views.new }
{
    let base = state::PER_CLIENT * view::client_of(x);
    trace::contents::fill(file, view::listing_of(x), views, base, fresh, n);
    let to = kinds::put_in(edition, file, x, buffer, at, views, base, fresh, n);
    views::masks::keep(views, base, fresh, n);
    to
}

// The records in an edition, behind the first bytes of the file.
pub fn write(edition: Edition, file: &[u8], buffer: &mut [u8], h: Header)
    requires { WholeFile file.now h × ((t : Trace) → decode file.now ≡ taken t → length (encode_in (edition_of edition) t) ≤ length buffer.old) }
    ensures { (t : Trace) → decode file.now ≡ taken t
        → buffer.new ≡ put_at buffer.old min_bytes (records_bytes (edition_of edition) t.keys (opening t.keys) t.events) }
{
    let mut views = [1u64; state::CLIENT_ROWS];
    let mut fresh = [0u64; state::FRESH];
    let mut to = Store::HEADER;
    let mut at = Store::HEADER;
    for _ in 0..h.records {
        let known = trace::records::known_at(file, at, h.keys);
        let record = known.record;
        to = write_one(
            edition, file, record, buffer, to, &mut views, &mut fresh, h.keys,
        );
        at = known.next;
    }
}
