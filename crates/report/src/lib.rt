// The report of an answer as text, written into a lent buffer. The lines stand in specs/Report.antt, and how long they can be in specs/Longest.antt.
#![tactic(auto)]

ghost use Rattle.std.specs.Prelude.{◌≡◌, [], ◌∷◌, ◌++◌, ◌+◌, ◌*◌, ◌≤◌, ◌<◌, length};
ghost use Rattle.endian.specs.Endian.{put_at};
ghost use Rattle.text.specs.Ascii.{space};
ghost use Rattle.text.specs.Lines.{line};
ghost use Rattle.text.specs.Put.{Put};
ghost use Rattle.state.specs.Answers.{refusal_of};
ghost use Rattle.levels.specs.Level.{levels, MR, MW, RYW, WFR, CC, UA, PSI, CP, SI, SER};
ghost use Rattle.verdicts.specs.Told.{Told, verdict_of, verdicts_of};
ghost use Rattle.judging.specs.Answers.{answer_of};
ghost use Rattle.report.specs.Report.{writer_pieces, behind, refusal_line, counts_line, failure_pieces, verdict_pieces, verdict_line, verdict_lines, report_text};
ghost use Rattle.report.specs.Longest.{longest_end, longest_refusal, longest_counts, longest_verdict, longest_report};

use judging::Answer;
use state::{Code, Key, Refusal, VersionNumber};
use verdicts::told::{Verdict, Verdicts};

// Every report has room in a buffer of so many bytes.
pub const LONGEST: usize = 1272;

// What stands behind the version of a refusal: ` writer 0` where the code is 13, and a line feed.
fn put_end(out: &mut [u8], at: usize, refusal: Refusal) -> usize
    requires { at + longest_end ≤ length out.old }
    ensures put { Put out.old at (behind (writer_pieces (refusal_of refusal))) out.new result }
    ensures upper_bound { result ≤ at + longest_end }
{
    if refusal.code == Code::Read as usize {
        let writer = refusal.writer;
        let named = text::put_field(out, at, b" writer ", writer.0 as u64);
        return text::put_bytes(out, named, b"\n");
    }
    text::put_bytes(out, at, b"\n")
}

// `refused 1 record 0 key 0 version 0`, or `refused 13 record 1 key 0 version 0 writer 0`
fn put_refusal(out: &mut [u8], at: usize, refusal: Refusal) -> usize
    requires { at + longest_refusal ≤ length out.old }
    ensures put { Put out.old at (refusal_line (refusal_of refusal)) out.new result }
    ensures upper_bound { result ≤ at + longest_refusal }
{
    let key = refusal.key;
    let version = refusal.version;
    let coded = text::put_field(out, at, b"refused ", refusal.code as u64);
    let named = text::put_field(out, coded, b" record ", refusal.record as u64);
    let keyed = text::put_field(out, named, b" key ", key.0 as u64);
    let whole = text::put_field(out, keyed, b" version ", version.0 as u64);
    put_end(out, whole, refusal)
}

// `records 2 commits 2`
fn put_counts(out: &mut [u8], at: usize, records: usize, commits: usize) -> usize
    requires { at + longest_counts ≤ length out.old }
    ensures put { Put out.old at (counts_line records commits) out.new result }
    ensures upper_bound { result ≤ at + longest_counts }
{
    let counted = text::put_field(out, at, b"records ", records as u64);
    let whole = text::put_field(out, counted, b" commits ", commits as u64);
    text::put_bytes(out, whole, b"\n")
}

// ` refused record 2 clause 5 key 0 version 1`, behind the name of a level
fn put_failure(
    out: &mut [u8],
    at: usize,
    record: usize,
    clause: usize,
    key: Key,
    version: VersionNumber,
) -> usize
    requires { at + longest_verdict ≤ length out.old }
    ensures put { Put out.old at (space ∷ line (failure_pieces «record» clause key.0 version.0)) out.new result }
    ensures upper_bound { result ≤ at + longest_verdict }
{
    let named = text::put_field(out, at, b" refused record ", record as u64);
    let judged = text::put_field(out, named, b" clause ", clause as u64);
    let keyed = text::put_field(out, judged, b" key ", key.0 as u64);
    let whole = text::put_field(out, keyed, b" version ", version.0 as u64);
    text::put_bytes(out, whole, b"\n")
}

// The verdict of the level of that name.
fn put_verdict(out: &mut [u8], at: usize, name: &[u8], v: Verdict) -> usize
    requires { at + (length name.now + longest_verdict) ≤ length out.old }
    ensures put { Put out.old at (name.now ++ (space ∷ line (verdict_pieces (verdict_of v)))) out.new result }
    ensures upper_bound { result ≤ at + (length name.now + longest_verdict) }
{
    let named = text::put_bytes(out, at, name);
    match v {
        Ok(()) => text::put_bytes(out, named, b" accepted\n"),
        Err(f) => put_failure(out, named, f.record, f.clause, f.key, f.version),
    }
}

// The verdicts of the first five levels in report order.
fn put_first(
    out: &mut [u8],
    at: usize,
    mr: Verdict,
    mw: Verdict,
    ryw: Verdict,
    wfr: Verdict,
    cc: Verdict,
) -> usize
    requires { at + (12 + 5 * longest_verdict) ≤ length out.old }
    ensures put { Put out.old at
        (verdict_lines (MR ∷ MW ∷ RYW ∷ WFR ∷ CC ∷ []) (verdict_of mr ∷ verdict_of mw ∷ verdict_of ryw ∷ verdict_of wfr ∷ verdict_of cc ∷ []))
        out.new result }
    ensures upper_bound { result ≤ at + (12 + 5 * longest_verdict) }
{
    let a = put_verdict(out, at, b"MR", mr);
    let b = put_verdict(out, a, b"MW", mw);
    let c = put_verdict(out, b, b"RYW", ryw);
    let d = put_verdict(out, c, b"WFR", wfr);
    put_verdict(out, d, b"CC", cc)
}

// And of the last five.
fn put_last(
    out: &mut [u8],
    at: usize,
    ua: Verdict,
    psi: Verdict,
    cp: Verdict,
    si: Verdict,
    ser: Verdict,
) -> usize
    requires { at + (12 + 5 * longest_verdict) ≤ length out.old }
    ensures put { Put out.old at
        (verdict_lines (UA ∷ PSI ∷ CP ∷ SI ∷ SER ∷ []) (verdict_of ua ∷ verdict_of psi ∷ verdict_of cp ∷ verdict_of si ∷ verdict_of ser ∷ []))
        out.new result }
    ensures upper_bound { result ≤ at + (12 + 5 * longest_verdict) }
{
    let a = put_verdict(out, at, b"UA", ua);
    let b = put_verdict(out, a, b"PSI", psi);
    let c = put_verdict(out, b, b"CP", cp);
    let d = put_verdict(out, c, b"SI", si);
    put_verdict(out, d, b"SER", ser)
}

// What was judged: the counts, and a line for each level.
fn put_judged(out: &mut [u8], records: usize, commits: usize, v: Verdicts) -> usize
    requires { longest_report ≤ length out.old }
    ensures put { Put out.old 0 (counts_line records commits ++ verdict_lines levels (verdicts_of v)) out.new result }
    ensures upper_bound { result ≤ longest_report }
{
    let counted = put_counts(out, 0, records, commits);
    let mr = v.mr;
    let mw = v.mw;
    let ryw = v.ryw;
    let wfr = v.wfr;
    let cc = v.cc;
    let half = put_first(out, counted, mr, mw, ryw, wfr, cc);
    let ua = v.ua;
    let psi = v.psi;
    let cp = v.cp;
    let si = v.si;
    let ser = v.ser;
    put_last(out, half, ua, psi, cp, si, ser)
}

// Writes the report at the start of `out` and answers its length. Where `out` is shorter than the longest report nothing is written, and 0 is answered.
pub fn write(a: Answer, out: &mut [u8]) -> usize
    ensures short { length out.old < longest_report → (result ≡ 0) × (out.new ≡ out.old) }
    ensures text { longest_report ≤ length out.old
        → (result ≡ length (report_text (answer_of a))) × (out.new ≡ put_at out.old 0 (report_text (answer_of a))) }
    ensures longest { result ≤ longest_report }
{
    if out.len() < LONGEST {
        return 0;
    }
    match a {
        Ok(j) => put_judged(out, j.records, j.commits, j.verdicts),
        Err(refusal) => put_refusal(out, 0, refusal),
    }
}
