// A checker written from documents 01 and 02 apart from the library: a reader, the rules, the walk, what a recording shows, the second certificate, and
// the program for a linear solver. The test program compares the library's replies with its.
#![tactic(auto)]

pub mod reading;
pub mod recording;
mod rules;
pub mod shortest;
pub mod stepping;
pub mod tables;
pub mod writing;
