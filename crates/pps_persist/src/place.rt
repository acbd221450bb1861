//! Where a loader stands.
use pps_engine::Engine;
use pps_types::Bytes;

/// What was restored of the entries so far.
#[derive(Drop)]
pub(crate) struct Loaded {
    pub(crate) engine: Engine,
    /// How many bytes the attributes of an object have as text at most, by the version.
    pub(crate) longest: usize,
    /// How many entries there were.
    pub(crate) count: u32,
    /// The path of the last entry, or the root's.
    pub(crate) last: Vec<Bytes>,
}

/// What is known of the last entry, where that is an object.
#[derive(Clone, Copy)]
pub(crate) struct Object {
    /// How many lines of it are to come.
    pub(crate) to_come: u32,
    /// How many bytes its lines so far have as text.
    pub(crate) text: usize,
}

/// Where a loader stands.
#[derive(Drop)]
pub(crate) enum Place {
    /// At the first line.
    First,
    /// At an entry or at the end.
    Between(Loaded),
    /// Within an object.
    Within(Loaded, Object),
    /// Behind the end.
    Behind(Engine),
}
