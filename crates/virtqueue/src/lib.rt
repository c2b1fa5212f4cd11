// The device side of a split queue, through a given flat view.
#![tactic(auto)]

mod chain;
pub mod in_place;
mod lent;
pub mod queue;
mod ring;
pub mod run;
mod serve;
pub mod step;
mod take;
pub mod thin;
