//! The attributes of an object, as records leave them.
ghost use Rattle.std.specs.Prelude.{◌≡◌, IfOk};
ghost use Rattle.pps_engine.specs.Behind.{attributes_in, AreLeftBy};

use object_state::Object;
use pps_types::{Kind, Refusal};
use std::alloc::Global;
use whole_texts::after_record;

/// The attributes of an object.
#[derive(Drop)]
pub(crate) enum Attributes<'a> {
    /// As they stand.
    Lent(&'a Object),
    /// As records leave them.
    Made(Object),
}

impl<'a> Attributes<'a> {
    /// The object that has them.
    pub(crate) fn object(&self) -> &Object
        ensures { result.now.attributes ≡ attributes_in self.now }
    {
        match self {
            Attributes::Lent(object) => object,
            Attributes::Made(object) => object,
        }
    }
}

/// The attributes behind a record of that kind. They are copied only where it may change them.
pub(crate) fn after<'a>(
    alloc: Global,
    attributes: Attributes<'a>,
    kind: &Kind,
) -> Result<Attributes<'a>, Refusal>
    ensures { IfOk result (λ left. AreLeftBy kind.now attributes.entry left) }
{
    match kind {
        Kind::Opened(_) => Ok(attributes),
        Kind::Closed(_) => Ok(attributes),
        Kind::FromClient(_, _) => Ok(attributes),
        Kind::ToClient(_, _) => Ok(attributes),
        Kind::ToAll(_) => Ok(attributes),
        _ => {
            let left = after_record(alloc, attributes.object(), kind)?;
            Ok(Attributes::Made(left))
        }
    }
}
