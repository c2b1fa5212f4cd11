// The C entry points of include/wicktumble.h: each calls the function of `wicktumble` of its name, and promises the same. A
// library of Rattle exports nothing to C, and a static library cannot be called from Rattle, so there are both. The
// header fixes the parameters of each, and an export has to be a function of its own.
#![tactic(auto)]

pub mod devices;
pub mod maps;
pub mod queues;
pub mod routes;
