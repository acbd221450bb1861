//! The limits of the service, each once, and how much its streams read at once. The QNX guide names none of them: they are
//! our own, and `docs/BEHAVIOUR.md` says what is refused past each.

// ---- what is kept

/// The most attributes of an object.
pub const ATTRIBUTES_MAX: usize = 1_024;

/// The most bytes of the printing of an object's attributes.
pub const TEXT_MAX: usize = 65_536;

/// The most objects in a directory.
pub const MEMBERS_MAX: usize = 256;

/// The most directories in one.
pub const SUBDIRECTORIES_MAX: usize = 256;

/// The most objects.
pub const OBJECTS_MAX: usize = 65_535;

/// The most directories, beside the root.
pub const DIRECTORIES_MAX: usize = 65_535;

/// The most open handles.
pub const HANDLES_MAX: usize = 65_535;

/// The most items, armed pulses and parked reads of a connection together.
pub const OUTBOX_MAX: usize = 1_024;

/// The highest number of a connection.
pub const CONNECTION_MAX: u16 = 1_024;

// ---- what is asked for

/// The most bytes of a path, `.all` included.
pub const PATH_MAX: usize = 1_024;

/// The most names of a path. `.all` is none.
pub const NAMES_MAX: usize = 32;

/// The most bytes of a name in a path.
pub const NAME_MAX: usize = 255;

/// The most bytes of the options of an open.
pub const OPTIONS_MAX: usize = 4_096;

/// How many records a handle may be owed that names no limit, in a service that names none.
pub const DEFAULT_LIMIT: u32 = 256;

/// The largest limit of a handle.
pub const LIMIT_MAX: u32 = 65_535;

/// The most bytes of a write.
pub const WRITE_MAX: usize = 65_536;

/// The most bytes that a read may ask for.
pub const READ_MAX: u32 = 17_000_000;

/// The highest code of a pulse.
pub const CODE_MAX: u8 = 127;

// ---- streams

/// How many bytes of an input are read at once.
pub const PIECE: usize = 65_536;

/// After how many reads an input counts as one that can't be read.
pub const READS_MAX: u32 = 4_294_967_295;
