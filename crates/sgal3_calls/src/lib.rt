// The calls on blocks of eleven values that have a definition of their own (sgal3.rs): compose, inverse and the chain, act on an event, and the
// parts of an element.
#![tactic(auto)]

pub mod composition;
pub mod events;
pub mod parts;
