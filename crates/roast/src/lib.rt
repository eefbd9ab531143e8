// The box of temperatures that are still possible for a drum: opened by a certificate, narrowed by row steps and readings.
#![tactic(auto)]

mod bounds;
pub mod call;
mod certificate;
mod matrix;
mod narrowing;
pub mod replay;
pub mod roast;
mod rounding;
mod rows;
