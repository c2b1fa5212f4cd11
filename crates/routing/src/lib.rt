// What the guest's accesses go through: lookup in a given flat view, and routing of one access or of many.
#![tactic(auto)]

pub mod answer;
pub mod route;
pub mod view;
