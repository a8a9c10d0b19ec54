// The run of a trace, record by record, on the arrays that keep the store: each is read (codes 3 to 8) and then done: what it is refused for (codes 9 to
// 14), what it changes, and what the ten levels say of it.
#![tactic(auto)]

mod one; // one.rt: one record

ghost use Rattle.std.specs.Prelude.{◌≡◌, ◌*◌, ◌^◌, ◌≤◌, ◌<◌, List, length};
ghost use Rattle.store.specs.Limits.{max_keys, max_clients, max_commits, min_bytes, max_bytes};
ghost use Rattle.store.specs.Store.{opening};
ghost use Rattle.trace.specs.Entry.{Entry, events_of};
ghost use Rattle.state.specs.Room.{Room, ValuesRoom, FreshRoom};
ghost use Rattle.verdicts.specs.Verdicts.{VerdictsRoom};
ghost use Rattle.trace.specs.Meaning.{Reading, RecordSays, counted_of, AllRecordsSay};
ghost use Rattle.trace.specs.Sorted.{reading_in, SortedInto};
ghost use Rattle.run.specs.declared.Stop.TheVariants as Stops;
ghost use Rattle.run.specs.Ran.{header_with, form_of, Starts, RanSays};

use commits::Engine;
use one::one_record;
use state::Refusal;
use trace::form::{Fault, Header, Misshapen, counted, records_form, refused_at};
use trace::records;
use trace::records::{Sorted, Why};

// Why a run stops: a record is not in form, or the meaning of one is refused and all records are in form.
#[derive(Clone, Copy)]
pub enum Stop {
    Misshapen(Misshapen),
    Refused(Refusal),
}

impl From<Misshapen> for Stop {
    ghost from_gives = { λ m s. s ≡ Stops.Misshapen m };

    fn from(m: Misshapen) -> Stop {
        Stop::Misshapen(m)
    }
}

// The record at a place in its turn, after so many commits (code 8), with its operations sorted.
fn read_turn(
    file: &[u8],
    at: usize,
    n: usize,
    clients: usize,
    made: usize,
    values: &mut [u64],
) -> Result<Sorted, Why>
    requires { (at ≤ length file.now) × (n ≤ max_keys) × (made ≤ max_commits) × (2 * max_keys ≤ length values.old) }
    ensures said { (x : Reading) × RecordSays file.now at n clients x × (reading_in result ≡ counted_of file.now n made x) }
    ensures sorted { SortedInto file.now values.old values.new result }
{
    let sorted = records::record_at(file, at, n, clients, values)?;
    counted(Ok(sorted.whole), made)?;
    Ok(sorted)
}

// The run of the records of a file with a header, from the opening arrays on, up to the end or to the first record that is refused. The form of a record is
// looked at just before it is done; that of the records after one whose meaning is refused, once it is.
pub fn run_all(
    file: &[u8],
    n: usize,
    clients: usize,
    records: usize,
    versions: &mut [u64],
    keys: &mut [u64],
    views: &mut [u64],
    seen: &mut [u64],
    sessions: &mut [u64],
    commits: &mut [u64],
    links: &mut [u64],
    verdicts: &mut [u64],
    values: &mut [u64],
    fresh: &mut [u64],
    engine: Engine,
) -> Result<usize, Stop>
    requires le_n { (1 ≤ n) × (n ≤ max_keys) × (clients ≤ max_clients) × (min_bytes ≤ length file.now) × (length file.now ≤ max_bytes) × (records < 2 ^ 16) }
    requires values_room { ValuesRoom values.old × FreshRoom fresh.old × VerdictsRoom verdicts.old }
    requires room { Room versions.old keys.old views.old seen.old sessions.old commits.old links.old }
    ensures form { AllRecordsSay file.now (header_with n clients records) (form_of (header_with n clients records) result) }
    ensures meaning { (rs : List Entry)
        → Starts file.now n clients records rs versions.old keys.old views.old seen.old sessions.old commits.old links.old verdicts.old values.old
        → RanSays n (events_of (opening n) rs) versions.new keys.new views.new seen.new sessions.new commits.new links.new verdicts.new result }
{
    let mut at = store::Store::HEADER;
    let mut made: usize = 0;
    for number in 1..records + 1 {
        let read = match read_turn(file, at, n, clients, made, values) {
            Ok(read) => read,
            Err(why) => return Err(Stop::Misshapen(refused_at(why, number))),
        };
        let record = read.whole.record;
        let outcome = one_record(
            file, record, read.ranks, number, made, versions, keys, views, seen, sessions, commits,
            links, verdicts, values, fresh, n, engine,
        );
        made = records::commits_with(record, made);
        at = read.whole.next;
        if let Err(refusal) = outcome {
            let header = Header {
                keys: n,
                clients,
                records,
            };
            records_form(file, header, at, number + 1, made)?;
            return Err(Stop::Refused(refusal));
        }
    }
    if at != file.len() {
        return Err(Stop::Misshapen(Misshapen {
            code: Fault::BytesLeft as usize,
            record: records,
        }));
    }
    Ok(made)
}
