// What implements the interface of a system beside tables: networks of links, and layers over any system.
#![tactic(auto)]

mod entries;
pub mod network;
pub mod record;
pub mod renumbering;
pub mod row_scaler;
