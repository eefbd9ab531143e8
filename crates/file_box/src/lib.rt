// What a heat file is answered with: the report of its box at rest, or of the first refusal.
#![tactic(auto)]

pub mod file;
pub mod finding;
pub mod table;
