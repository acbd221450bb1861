//! Names, open handles and connections, tied to each other.
ghost use Rattle.std.specs.Prelude.{◌≡◌, IfOk};
ghost use Rattle.std.specs.Option.{option_copied};
ghost use Rattle.pps_types.specs.Content as content;
ghost use Rattle.service_state.specs.Tables.{content_in, new_content, AreTied};

use name_table::Names;
use notify_box::{Connections, connections_are_found};
use open_handles::Handles;
use pps_types::{Conn, DirId};
use std::alloc::{AllocError, Global};
use std::marker::Model;

/// All that stands of a service.
pub struct Tables {
    pub(crate) default_limit: u32,
    pub(crate) records: u64,
    pub(crate) names: Names,
    pub(crate) handles: Handles,
    pub(crate) connections: Connections,
}

impl Model for Tables {
    ghost use Rattle.service_state.specs.Tables.{Tabled, AreTied};
    ghost use Rattle.std.specs.Coded.{codes};
    ghost use Rattle.name_table.specs.Standing.{coded_tree};

    ghost Value = { Tabled };

    ghost coded = { Prim.hlevel (codes, coded_tree) };

    ghost view = { λ t. record { default_limit = t.default_limit; records = t.records; names = t.names; handles = t.handles; connections = t.connections } };

    ghost invariant = { λ t. AreTied (record { default_limit = t.default_limit; records = t.records; names = t.names; handles = t.handles; connections = t.connections }) };
}

// Written out, since each crate that drops one would prove a derived drop anew, with those of all its parts.
impl Drop for Tables {
    fn drop(self) {
        let Tables {
            default_limit: _,
            records: _,
            names: _,
            handles: _,
            connections: _,
        } = self;
    }
}

impl Tables {
    /// What stands of a new service: the root alone. The first handle gets that number.
    ///
    pub fn new(alloc: Global, first_handle: u32, default_limit: u32) -> Result<Tables, AllocError>
        ensures { IfOk result (λ made. content_in made ≡ new_content first_handle default_limit) }
    {
        let names = Names::new(alloc)?;
        let mut handles = Handles::new(alloc, u64::from(first_handle));
        handles.reserve_directory()?;
        handles.add_directory(alloc, DirId::new(0));
        Ok(Tables {
            default_limit,
            records: 0,
            names,
            handles,
            connections: Connections::new(alloc),
        })
    }

    /// The limit of handles that name none.
    #[inline(always)]
    pub fn default_limit(&self) -> u32
        ensures { result ≡ self.now.default_limit }
    {
        self.default_limit
    }

    /// How many records there were so far.
    #[inline(always)]
    pub fn records(&self) -> u64
        ensures { result ≡ self.now.records }
    {
        self.records
    }

    /// The names, with objects and directories.
    #[inline(always)]
    pub fn names(&self) -> &Names
        ensures { result.now ≡ self.now.names }
    {
        &self.names
    }

    /// The open handles.
    #[inline(always)]
    pub fn handles(&self) -> &Handles
        ensures { result.now ≡ self.now.handles }
    {
        &self.handles
    }

    /// The attached connections.
    #[inline(always)]
    pub fn connections(&self) -> &Connections
        ensures { result.now ≡ self.now.connections }
    {
        &self.connections
    }

    /// Does nothing. Its contract is the law that names, handles and connections agree.
    #[inline(always)]
    pub fn are_tied(&self)
        ensures { AreTied self.now }
    {
        let _ = &self.names;
    }

    /// Whether a connection is attached.
    #[inline(always)]
    pub fn is_attached(&self, conn: Conn) -> bool
        ensures { result ≡ content.is_attached (content_in self.now) conn }
    {
        connections_are_found();
        self.connections.is_attached(conn)
    }
}
