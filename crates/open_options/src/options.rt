//! The options of an open.
ghost use Rattle.std.specs.Prelude.{◌≡◌, ◌↔◌, IsTrue, IfOk, IfErr, IsOkUnless, OnOk};
ghost use Rattle.std.specs.Option.{option_copied};
ghost use Rattle.pps_types.specs.declared.refusal.Refusal.TheVariants.{OutOfMemory};
ghost use Rattle.pps_types.specs.OpenText as meant;
ghost use Rattle.pps_types.specs.OpenText.{with_word, with_filter, with_limit, with_option};
ghost use Rattle.pps_filter.specs.Refused.{IsOptionRefusal};
ghost use Rattle.open_options.specs.Added.{listed_options, Adds, AddsIf, IsRefusalToAdd};
ghost use Rattle.open_options.specs.Seen.{options_seen, handle_options_seen};

use pps_filter::{Filter, first_plain_piece, read_parts};
use pps_types::limits::{LIMIT_MAX, OPTIONS_MAX};
use pps_types::{Refusal, after_prefix, number_up_to};
use std::alloc::Global;

/// The most digits of a limit.
const LIMIT_DIGITS: usize = 5;

/// The options of an open that its handle keeps as they are: those of the QNX PPS guide, but for `critical`, which is our
/// own.
#[derive(Debug, Drop)]
pub struct HandleOptions {
    /// `wait`: a read that finds nothing new waits.
    pub wait: bool,
    /// `reflect`: an object's handle that is given its own changes too.
    pub reflect: bool,
    /// `critical`: when it closes, its object's nonpersistent attributes go with it.
    pub critical: bool,
    /// `f=`: which lines it is given. Without it, all.
    pub filter: Option<Filter>,
}

// A copy of a filter, if there is one.
fn copy_filter(filter: Option<&Filter>) -> Result<Option<Filter>, Refusal>
    ensures ok { IfOk result (λ copy. copy ≡ option_copied filter.entry) }
    ensures err { IsOkUnless result OutOfMemory }
{
    match filter {
        None => Ok(None),
        Some(filter) => Ok(Some(filter.copy()?)),
    }
}

// Whether the filters are the same, or there is none in both.
fn same_filter(one: Option<&Filter>, other: Option<&Filter>) -> bool
    ensures { IsTrue result ↔ (option_copied one.entry ≡ option_copied other.entry) }
{
    match one {
        None => other.is_none(),
        Some(one) => match other {
            None => false,
            Some(other) => one.same(other),
        },
    }
}

impl HandleOptions {
    /// None of them. It takes no memory.
    pub fn new() -> HandleOptions
        ensures { handle_options_seen result ≡ meant.no_handle_options }
    {
        HandleOptions {
            wait: false,
            reflect: false,
            critical: false,
            filter: None,
        }
    }

    /// Whether both are the same. It takes no memory.
    pub fn same(&self, other: &HandleOptions) -> bool
        ensures { IsTrue result ↔ (self.now ≡ other.now) }
    {
        self.wait == other.wait
            && self.reflect == other.reflect
            && self.critical == other.critical
            && same_filter(self.filter.as_ref(), other.filter.as_ref())
    }

    /// The same once more.
    ///
    /// OutOfMemory is the only error, and comes only if there is a filter.
    pub fn copy(&self) -> Result<HandleOptions, Refusal>
        ensures ok { IfOk result (λ copy. copy ≡ self.now) }
        ensures err { IsOkUnless result OutOfMemory }
    {
        let filter = copy_filter(self.filter.as_ref())?;
        Ok(HandleOptions {
            wait: self.wait,
            reflect: self.reflect,
            critical: self.critical,
            filter,
        })
    }
}

/// The options of an open, so far.
#[derive(Debug, Drop)]
pub(crate) struct Options {
    pub(crate) delta: bool,
    pub(crate) deltadir: bool,
    pub(crate) nopersist: bool,
    pub(crate) server: bool,
    pub(crate) limit: Option<u32>,
    pub(crate) of_handle: HandleOptions,
}

impl Options {
    fn new() -> Options
        ensures { options_seen result ≡ meant.no_options }
    {
        Options {
            delta: false,
            deltadir: false,
            nopersist: false,
            server: false,
            limit: None,
            of_handle: HandleOptions::new(),
        }
    }

    /// Adds an option that is a word alone, if the text is one. It may come again.
    fn add_word(&mut self, text: &[u8]) -> bool
        ensures { AddsIf result with_word self.old text.now self.new }
    {
        match text {
            b"delta" => self.delta = true,
            b"deltadir" => self.deltadir = true,
            b"wait" => self.of_handle.wait = true,
            b"nopersist" => self.nopersist = true,
            b"reflect" => self.of_handle.reflect = true,
            b"server" => self.server = true,
            b"critical" => self.of_handle.critical = true,
            _ => return false,
        }
        true
    }

    /// Adds what stands behind `f=`, which may stand once.
    fn add_filter(&mut self, alloc: Global, text: &[u8]) -> Result<(), Refusal>
        ensures ok { OnOk result (Adds with_filter self.old text.now self.new) }
        ensures err { IfErr result (IsRefusalToAdd with_filter self.old text.now) }
    {
        if self.of_handle.filter.is_some() {
            return Err(Refusal::BadOption);
        }
        self.of_handle.filter = Some(read_parts(alloc, text)?);
        Ok(())
    }

    /// Adds what stands behind `limit=`, which may stand once.
    fn add_limit(&mut self, text: &[u8]) -> Result<(), Refusal>
        ensures ok { OnOk result (Adds with_limit self.old text.now self.new) }
        ensures err { IfErr result (IsRefusalToAdd with_limit self.old text.now) }
    {
        if self.limit.is_some() {
            return Err(Refusal::BadOption);
        }
        let Some(limit) = number_up_to(LIMIT_DIGITS, LIMIT_MAX, text) else {
            return Err(Refusal::BadOption);
        };
        self.limit = Some(limit);
        Ok(())
    }

    /// Adds one option. An empty one says nothing, and a word may stand again.
    fn add(&mut self, alloc: Global, text: &[u8]) -> Result<(), Refusal>
        ensures ok { OnOk result (Adds with_option self.old text.now self.new) }
        ensures err { IfErr result (IsRefusalToAdd with_option self.old text.now) }
    {
        if text.is_empty() {
            return Ok(());
        }
        if let Some(filter) = after_prefix(b"f=", text) {
            return self.add_filter(alloc, filter);
        }
        if let Some(limit) = after_prefix(b"limit=", text) {
            return self.add_limit(limit);
        }
        if !self.add_word(text) {
            return Err(Refusal::BadOption);
        }
        Ok(())
    }

    /// Whether some of them do not go together, or not with `.all`, or not without it.
    fn clash(&self, all: bool) -> bool
        ensures { result ≡ meant.do_options_clash all (options_seen self.now) }
    {
        (self.deltadir && (!all || self.delta || self.of_handle.filter.is_some()))
            || (all && (self.server || self.of_handle.critical))
    }
}

/// Reads options with a plain comma between each two, in any combination.
fn read_each(alloc: Global, text: &[u8]) -> Result<Options, Refusal>
    ensures ok { IfOk result (λ read. listed_options text.now ≡ Some (options_seen read)) }
    ensures err { IfErr result (IsOptionRefusal (listed_options text.now)) }
{
    let mut options = Options::new();
    let mut rest = Some(text);
    while let Some(text) = rest {
        let (option, behind) = first_plain_piece(b',', text);
        options.add(alloc, option)?;
        rest = behind;
    }
    Ok(options)
}

/// Reads the options of an open. `all` tells whether its path ends in `.all`.
pub(crate) fn read_options(alloc: Global, all: bool, text: &[u8]) -> Result<Options, Refusal>
    ensures ok { IfOk result (λ read. meant.options_text all text.now ≡ Some (options_seen read)) }
    ensures err { IfErr result (IsOptionRefusal (meant.options_text all text.now)) }
{
    if text.len() > OPTIONS_MAX || text.contains(&b'\n') {
        return Err(Refusal::BadOption);
    }
    let options = read_each(alloc, text)?;
    if options.clash(all) {
        return Err(Refusal::BadOption);
    }
    Ok(options)
}
