// "The trace file" (01): its records read one by one, the form of a whole file (codes 1 to 8), and what stands in a record.
// See specs/ for what a file means.
#![tactic(auto)]

pub mod records; // records.rt: one record, read whole or refused
pub mod reader; // reader.rt: a reader that holds the file and its place in it
pub mod form; // form.rt: the form of a file: its header, and its records from a place on
pub mod contents; // contents.rt: the masks and operations of a record
