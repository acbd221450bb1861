//! What is answered, and what is done for that.
ghost use Rattle.std.specs.Prelude.{◌≡◌, IfOk, IfErr};
ghost use Rattle.pps_types.specs.declared.refusal.Refusal.TheVariants.{OutOfMemory};

use crate::doing::Doing;
use pps_types::{Outcome, Refusal};
use std::alloc::Global;

/// What an event answers and does.
#[derive(Drop)]
pub(crate) struct Done {
    pub(crate) reply: Outcome,
    pub(crate) doing: Doing,
}

/// A value in a box. OutOfMemory is the only error.
pub(crate) fn boxed<T: Drop>(alloc: Global, value: T) -> Result<Box<T>, Refusal>
    ensures ok { IfOk result (λ b. b.value ≡ value) }
    ensures err { IfErr result (λ r. r ≡ OutOfMemory) }
{
    match Box::new(alloc, value) {
        Ok(value) => Ok(value),
        Err(_) => Err(Refusal::OutOfMemory),
    }
}
