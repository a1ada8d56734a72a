// What the test program has beside the library and the second checker: the lines of its cases, the texts, lists, tables and walks that these say, what is
// lent and whether it holds afterwards what it should, and a line for each case.
#![tactic(auto)]

pub mod keeping;
pub mod lines;
pub mod lists;
pub mod tables;
pub mod tally;
#[cfg(test)]
mod tests;
pub mod texts;
pub mod walks;
