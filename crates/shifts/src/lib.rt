// A view shift made on the arrays: what the masks of a record come to (codes 10 and 11), code 12, and the view that they become.
#![tactic(auto)]

pub mod masks; // masks.rt: the masks of a record against the store
pub mod shift; // shift.rt: one shift
