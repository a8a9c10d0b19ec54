// A bare image read back (02, E9): whether the bytes are an image at all (code 20), and the links between its commits.
// What an image says is in specs/Reading.antt of the crate store; the links are those of the crate ordering.
#![tactic(auto)]

pub mod linking;
pub mod shape;
