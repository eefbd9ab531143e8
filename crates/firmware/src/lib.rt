// C functions for a recorder's firmware: numbers, cells, a file and a box that lie in the caller's memory.
#![tactic(auto)]

mod asking;
mod exports;
mod held;
mod narrowing;
mod reply;
mod settling;
