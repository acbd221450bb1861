//! Worked rows: small histories of the service with their right answers. Each function's contract is that the machine,
//! as it is defined, gives these answers; so a slip in a definition shows here. The functions do nothing.
#![tactic(auto)]

pub mod frames;
pub mod images;
pub mod kept_answers;
pub mod limits;
pub mod private_traffic;
pub mod scripts;
pub mod shown_values;
