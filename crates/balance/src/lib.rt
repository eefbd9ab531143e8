// Interval linear systems of a steady heat balance: refusals, ranges, the interface of a system, tables, and a point against the balance.
#![tactic(auto)]

pub mod cell;
pub mod places;
pub mod point;
pub mod range;
pub mod refusal;
pub mod system;
pub mod table;
