// The file that gives the ranges of a system and a certificate, as people write it: its numbers, its words, its lines, its trailer, what it
// fills, and the report of what is found.
#![tactic(auto)]

mod check;
pub mod line;
pub mod number;
pub mod reader;
pub mod report;
mod trailer;
pub mod word;
