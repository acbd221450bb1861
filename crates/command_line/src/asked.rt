//! What a command line asks for.
ghost use Rattle.std.specs.Prelude.{◌≡◌, ◌≤◌, ◌&&◌, IfSome, is_some, nat_le};

use std::marker::Model;
use std::num::NonZeroU16;

/// The most workers.
const WORKERS_MAX: u16 = 8;

/// What a service begins with.
#[derive(Clone, Copy, Debug, PartialEq, Eq)]
pub enum Beginning<'w> {
    /// Nothing but the root. Handles that name no limit have this one.
    Empty(NonZeroU16),
    /// The image in this file.
    Image(&'w str),
}

/// A service: what it begins with, and the file that it is saved to at its end.
#[derive(Clone, Copy, Debug, PartialEq, Eq)]
pub struct ServiceOptions<'w> {
    pub beginning: Beginning<'w>,
    pub save: Option<&'w str>,
}

/// How a script is to be run.
#[derive(Clone, Copy, Debug, PartialEq, Eq)]
pub struct RunOptions<'w> {
    /// Whether the values of encoding b and b64 are shown below the answers to reads.
    pub show: bool,
    /// Whether the script goes on after a bad line, which is reported.
    pub interactive: bool,
    pub service: ServiceOptions<'w>,
}

/// How many workers serve.
#[derive(Clone, Copy, Debug, PartialEq, Eq)]
pub struct Workers(u16);

impl Model for Workers {
    ghost use Rattle.std.specs.Prelude.{◌≤◌, ℕ};

    ghost Value = { ℕ };

    ghost view = { λ a. a.0 };

    ghost inverse = { λ n. record { 0 = n } };

    ghost invariant = { λ a. (1 ≤ a.0) × (a.0 ≤ 8) };
}

impl Workers {
    /// So many workers, if they are 1 to 8.
    pub(crate) fn new(count: u16) -> Option<Workers>
        ensures some { IfSome result (λ workers. workers ≡ count) }
        ensures range { is_some result ≡ (nat_le 1 count && nat_le count 8) }
    {
        if (1..=WORKERS_MAX).contains(&count) {
            return Some(Workers(count));
        }
        None
    }

    /// How many they are.
    pub fn count(self) -> usize
        ensures same { result ≡ self }
        ensures range { (1 ≤ result) × (result ≤ 8) }
    {
        let Workers(count) = self;
        usize::from(count)
    }
}

/// How script files are to be served.
#[derive(Debug, Drop)]
pub struct ServeOptions<'w> {
    pub workers: Workers,
    /// The script files, 1 to 1,024.
    pub scripts: Vec<&'w str>,
    /// The file to which the order of the messages is written, if one is named.
    pub history: Option<&'w str>,
}

/// What a command line asks for.
#[derive(Drop)]
pub enum Asked<'w> {
    Run(RunOptions<'w>),
    /// Frames are to be served.
    Frames(ServiceOptions<'w>),
    /// Script files are to be served.
    Serve(ServeOptions<'w>),
    /// The help or the version.
    Text(String),
}
