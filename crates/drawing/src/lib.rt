// The drawing of a map for people: the address line, a row for each region, and the flat view below.
#![tactic(auto)]

mod cell;
pub mod drawing;
mod label;
mod map;
mod position;
mod row;
