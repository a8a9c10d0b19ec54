// One commit of a trace on the arrays that keep the store: what it is refused for (codes 9, 13, 10, 11, 14 in this order), what the ten
// levels say of it, and what it changes.
#![tactic(auto)]

mod engines; // engines.rt: how it is judged
mod late; // late.rt: its view after (codes 10, 11 and 14), and the verdicts on it
pub mod record; // record.rt: the whole record (code 9 before the commit is made, code 13 as it is made)

// How a commit is judged: by the sets that are kept along the run, or by trying every commit as the next link (02, E10). The answers are the same.
#[derive(Clone, Copy)]
pub enum Engine {
    Fast,
    Plain,
}
