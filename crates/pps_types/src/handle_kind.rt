//! The kinds of handles.

/// What a handle was opened on, and as what. Handles on objects and on directories read in delta mode, or in full mode.
#[derive(Clone, Copy, Debug, PartialEq, Eq)]
pub enum HandleKind {
    Object { delta: bool },
    Directory { delta: bool },
    /// The names of a directory's objects alone.
    Names,
    /// The owner of a server object.
    Server,
    /// A client of a server object.
    Client,
}
