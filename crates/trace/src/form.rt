// The form of a file: codes 1 to 8 in the order of "Bench codes" (01), "1 and 2; then form over all records in turn; 5". What comes before the
// records is looked at by itself. Whoever runs the records reads each of them once, and asks here for the form of those that are left only where a meaning is refused.
ghost use Rattle.std.specs.Prelude.{◌≡◌, List, ℕ, ◌+◌, ◌≤◌, ◌<◌, length};
ghost use Rattle.store.specs.Limits.{max_keys, max_commits};
ghost use Rattle.trace.specs.Format.{within_limits};
ghost use Rattle.trace.specs.Meaning.{why_number, counted_of, header_of, RestSays, HeaderSays};

use crate::records::{Reading, Why};
use crate::{reader, records};

// "keys u8, clients u8, count u16 of records that follow"
#[derive(Clone, Copy)]
pub struct Header {
    pub keys: usize,
    pub clients: usize,
    pub records: usize,
}

// What is wrong with a file outside its records, with the code of each: its length, its header, "bytes left after the counted records".
#[derive(Clone, Copy)]
pub enum Fault {
    FileLength = 1,
    Header = 2,
    BytesLeft = 5,
}

// What is not in form: its code, and the number of the record where it is found.
#[derive(Clone, Copy)]
pub struct Misshapen {
    pub code: usize,
    pub record: usize,
}

// What was looked at is in form, of a file with this header; or the first thing that is not.
pub type Form = Result<Header, Misshapen>;

// A record in its turn, after so many commits; code 8: "a 64th commit".
pub fn counted(x: Reading, commits: usize) -> Reading
    requires { commits ≤ max_commits }
    ensures { (s : List ℕ) (keys : ℕ) → result ≡ counted_of s keys commits x }
{
    let Ok(whole) = x else {
        return x;
    };
    let count = records::commits_with(whole.record, commits);
    if store::Store::COMMITS < count {
        return Err(Why::Many);
    }
    Ok(whole)
}

// The refusal of the record of this number.
pub fn refused_at(why: Why, number: usize) -> Misshapen
    ensures { result ≡ record { code = why_number why; «record» = number } }
{
    Misshapen {
        code: records::number(why),
        record: number,
    }
}

// "form over all records in turn": of those from a place on, the first of which has this number and comes after so many commits, by a reader that goes
// to the last, each read whole or the file refused there.
pub fn records_form(s: &[u8], h: Header, at: usize, index: usize, commits: usize) -> Form
    requires { (at ≤ length s.now) × (h.keys ≤ max_keys) × (h.records < 65536) × (index ≤ h.records + 1) × (commits ≤ max_commits) }
    ensures { RestSays s.now h at index commits result }
{
    let mut r = reader::new(s, at);
    let mut made = commits;
    for number in index..h.records + 1 {
        let whole = match counted(reader::next(&mut r, h.keys, h.clients), made) {
            Ok(whole) => whole,
            Err(why) => return Err(refused_at(why, number)),
        };
        made = records::commits_with(whole.record, made);
    }
    if r.at != s.len() {
        return Err(Misshapen {
            code: Fault::BytesLeft as usize,
            record: h.records,
        });
    }
    Ok(h)
}

// "Keys 1 to" 32, "clients 1 to 16"
fn within_limits(h: Header) -> bool
    ensures { result ≡ within_limits (header_of h) }
{
    if h.keys == 0 {
        return false;
    }
    if store::Store::KEYS < h.keys {
        return false;
    }
    if h.clients == 0 {
        return false;
    }
    h.clients <= store::Store::CLIENTS
}

// What comes before the records of a file, "1 and 2": nothing is asked of its bytes.
pub fn header_of(s: &[u8]) -> Form
    ensures { HeaderSays s.now result }
{
    let wrong_length = Misshapen {
        code: Fault::FileLength as usize,
        record: 0,
    };
    let wrong_header = Misshapen {
        code: Fault::Header as usize,
        record: 0,
    };
    let len = s.len();
    if len < store::Store::HEADER {
        return Err(wrong_length);
    }
    if store::Store::BYTES < len {
        return Err(wrong_length);
    }
    if endian::u32_at(s, 0) as usize != len {
        return Err(wrong_length);
    }
    if endian::u16_at(s, 4) != 8 {
        return Err(wrong_header);
    }
    if endian::u16_at(s, 6) != 1 {
        return Err(wrong_header);
    }
    let h = Header {
        keys: endian::byte_at(s, 8),
        clients: endian::byte_at(s, 9),
        records: endian::u16_at(s, 10) as usize,
    };
    if within_limits(h) {
        Ok(h)
    } else {
        Err(wrong_header)
    }
}
