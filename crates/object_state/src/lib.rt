//! The attributes of one object: in order, within their limits, and as the lines of writes change them.
#![tactic(auto)]

mod attributes;
mod changes;
mod content;
mod effect;
mod lent;
mod lines;
mod marks;
mod noted;
mod object;
mod places;
mod print;

pub use lent::AttributeRef;
pub use object::Object;
