// The region map under the guest: the walk through the tree of a map that the check accepts, and the flat view. A map
// is read, and a view is made, in the words that are lent.
#![tactic(auto)]

mod children;
mod flat;
mod pieces;
mod regions;
mod render;
pub mod resolve;
pub mod view;
mod walk;
