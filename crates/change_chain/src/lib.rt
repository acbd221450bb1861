//! A list whose positions never change: it grows at its end, and is cut at its front.
#![tactic(auto)]

mod chain;

pub use chain::Chain;
