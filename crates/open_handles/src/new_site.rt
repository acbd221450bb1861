//! An object that is to be added.
ghost use Rattle.std.specs.Prelude.{◌≡◌, [], IfOk};
ghost use Rattle.pps_types.specs.declared.found.Found.TheVariants.{Object as FoundObject};
ghost use Rattle.topics.specs.HandlesOf.{target_of, name_of, handles_of, kept_of, is_service};

use pps_types::{Bytes, ObjId};
use std::alloc::{AllocError, Global};
use std::marker::Model;
use topics::Topic;

/// An object without handles, a server's or a plain one.
fn topic_of(alloc: Global, object: ObjId, name: Bytes, is_served: bool) -> Topic
    ensures target { target_of result ≡ FoundObject object }
    ensures name { name_of result ≡ name }
    ensures handles { handles_of result ≡ [] }
    ensures kept { kept_of result ≡ [] }
    ensures service { is_service result ≡ is_served }
{
    if is_served {
        Topic::of_service(alloc, object, name)
    } else {
        Topic::of_object(alloc, object, name)
    }
}

/// An object without handles that is to be added to all others, with room for its first handle.
#[derive(Drop)]
pub struct NewSite {
    pub(crate) object: ObjId,
    pub(crate) topic: Topic,
}

impl Model for NewSite {
    ghost use Rattle.open_handles.specs.Whole.{Fresh, IsFresh, site_of};

    ghost Value = { Fresh };

    ghost view = { λ x. record { object = x.object; site = site_of x.topic } };

    ghost invariant = { λ x. IsFresh x.object x.topic };
}

impl NewSite {
    /// An object without handles, a server's or a plain one, with memory for its first handle.
    ///
    /// AllocError comes only where memory is wanting.
    pub fn of_object(
        alloc: Global,
        object: ObjId,
        name: Bytes,
        is_served: bool,
    ) -> Result<NewSite, AllocError>
        ensures object { IfOk result (λ fresh. fresh.object ≡ object) }
        ensures site { IfOk result (λ x. x.site ≡ record { name = name; service = is_served }) }
    {
        let mut topic = topic_of(alloc, object, name, is_served);
        topic.reserve_handle()?;
        Ok(NewSite { object, topic })
    }
}
