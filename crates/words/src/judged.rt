// The verdicts of the levels as words, four for each.
ghost use Rattle.std.specs.Prelude.{◌≡◌, [], ◌∷◌, ◌++◌, ◌+◌, ◌≤◌, length};
ghost use Rattle.endian.specs.Endian.{put_at};
ghost use Rattle.verdicts.specs.Told.{verdict_of, verdicts_of};
ghost use Rattle.words.specs.Layout.{answer_length, verdict_words, all_verdict_words};

use verdicts::told::{Verdict, Verdicts};

// Four words from `at`.
pub fn put_four(out: &mut [u64], at: usize, a: u64, b: u64, c: u64, d: u64)
    requires { at + 4 ≤ length out.old }
    ensures { out.new ≡ put_at out.old at (a ∷ b ∷ c ∷ d ∷ []) }
{
    out[at] = a;
    out[at + 1] = b;
    out[at + 2] = c;
    out[at + 3] = d;
}

// The four words of a verdict from `at`.
fn put_verdict(out: &mut [u64], at: usize, v: Verdict)
    requires { at + 4 ≤ length out.old }
    ensures { out.new ≡ put_at out.old at (verdict_words (verdict_of v)) }
{
    match v {
        Ok(()) => put_four(out, at, 0, 0, 0, 0),
        Err(f) => put_four(
            out,
            at,
            f.clause as u64,
            f.record as u64,
            f.key.0 as u64,
            f.version.0 as u64,
        ),
    }
}

// Five verdicts from `at`.
fn put_five(out: &mut [u64], at: usize, a: Verdict, b: Verdict, c: Verdict, d: Verdict, e: Verdict)
    requires { at + 20 ≤ length out.old }
    ensures { out.new ≡ put_at out.old at (verdict_words (verdict_of a) ++ verdict_words (verdict_of b) ++ verdict_words (verdict_of c) ++ verdict_words (verdict_of d) ++ verdict_words (verdict_of e)) }
{
    put_verdict(out, at, a);
    put_verdict(out, at + 4, b);
    put_verdict(out, at + 8, c);
    put_verdict(out, at + 12, d);
    put_verdict(out, at + 16, e);
}

// The verdicts of all levels, from the fifth word on.
pub fn put_verdicts(out: &mut [u64], v: Verdicts)
    requires { answer_length ≤ length out.old }
    ensures { out.new ≡ put_at out.old 4 (all_verdict_words (verdicts_of v)) }
{
    let mr = v.mr;
    let mw = v.mw;
    let ryw = v.ryw;
    let wfr = v.wfr;
    let cc = v.cc;
    put_five(out, 4, mr, mw, ryw, wfr, cc);
    let ua = v.ua;
    let psi = v.psi;
    let cp = v.cp;
    let si = v.si;
    let ser = v.ser;
    put_five(out, 24, ua, psi, cp, si, ser);
}
