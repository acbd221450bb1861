//! What the words of a command line ask for.
ghost use Rattle.std.specs.Prelude.{◌≡◌, false, IfErr, IfOk, OnErr, OnOk, codes, map};
ghost use Rattle.clap.specs.Matches.{first_value, found_of, one_text};
ghost use Rattle.command_line.specs.Words.{AsksFor, BadFiles, BadService, CommandAsks, FailsFor, FilesIn, IsBeginning, IsNumber, Refuses, ScriptIn, ServiceIn, has_both};
ghost use Rattle.command_line.specs.declared.fault.WordsFault.TheVariants.{BadCommandLine};

use crate::asked::{Asked, Beginning, RunOptions, ServeOptions, ServiceOptions, Workers};
use crate::fault::WordsFault;
use crate::rules::whole_command;
use clap::ArgMatches;
use clap::error::ErrorKind;
use pps_types::limits::DEFAULT_LIMIT;
use std::alloc::Global;
use std::convert::AsStr;
use std::num::NonZeroU16;

fn asked_limit(matches: &ArgMatches<'_>) -> Result<NonZeroU16, WordsFault>
    ensures limit { IfOk result (λ limit.
        IsNumber (one_text (found_of matches.now) (codes "limit")) 256 limit.value) }
    ensures fault { IfErr result (λ _.
        IsNumber (one_text (found_of matches.now) (codes "limit")) 256 0) }
{
    let limit = matches
        .get_one::<u16>("limit")
        .unwrap_or(DEFAULT_LIMIT as u16);
    NonZeroU16::new(limit).ok_or(WordsFault::BadCommandLine)
}

fn asked_beginning<'w>(matches: &ArgMatches<'w>) -> Result<Beginning<'w>, WordsFault>
    ensures beginning { IfOk result (
        IsBeginning (first_value (found_of matches.now) (codes "image"))
        (one_text (found_of matches.now) (codes "limit"))) }
    ensures alone { OnOk result (has_both (found_of matches.now) ≡ false) }
    ensures fault { OnErr result (BadService (found_of matches.now)) }
{
    match matches.get_str("image") {
        Some(_) if matches.contains_id("limit") => Err(WordsFault::BadCommandLine),
        Some(image) => Ok(Beginning::Image(image)),
        None => Ok(Beginning::Empty(asked_limit(matches)?)),
    }
}

fn asked_service<'w>(matches: &ArgMatches<'w>) -> Result<ServiceOptions<'w>, WordsFault>
    ensures service { IfOk result (ServiceIn (found_of matches.now)) }
    ensures fault { OnErr result (BadService (found_of matches.now)) }
{
    Ok(ServiceOptions {
        beginning: asked_beginning(matches)?,
        save: matches.get_str("save"),
    })
}

fn asked_scripts<'w>(
    alloc: Global,
    matches: &ArgMatches<'w>,
) -> Result<ServeOptions<'w>, WordsFault>
    ensures files { IfOk result (FilesIn (found_of matches.now)) }
    ensures fault { IfErr result (λ fault.
        fault ≡ BadCommandLine → BadFiles (found_of matches.now)) }
{
    let count = matches.get_one::<u16>("workers").unwrap_or(0);
    let workers = Workers::new(count).ok_or(WordsFault::BadCommandLine)?;
    let Some(files) = matches.get_strs("F") else {
        return Err(WordsFault::BadCommandLine);
    };
    let mut scripts = Vec::new(alloc);
    scripts.extend_from_slice(files)?;
    Ok(ServeOptions {
        workers,
        scripts,
        history: matches.get_str("history"),
    })
}

fn asked_script<'w>(matches: &ArgMatches<'w>) -> Result<RunOptions<'w>, WordsFault>
    ensures script { IfOk result (ScriptIn (found_of matches.now)) }
    ensures fault { OnErr result (BadService (found_of matches.now)) }
{
    Ok(RunOptions {
        show: matches.get_flag("show"),
        interactive: matches.get_flag("interactive"),
        service: asked_service(matches)?,
    })
}

// What a command asks for, by its name and its options.
fn asked_command<'w>(
    alloc: Global,
    name: &str,
    matches: &ArgMatches<'w>,
) -> Result<Asked<'w>, WordsFault>
    ensures asks { IfOk result (CommandAsks name.now (found_of matches.now)) }
    ensures fault { IfErr result (FailsFor name.now (found_of matches.now)) }
{
    match name {
        "run" => Ok(Asked::Run(asked_script(matches)?)),
        "frames" => Ok(Asked::Frames(asked_service(matches)?)),
        "serve" => Ok(Asked::Serve(asked_scripts(alloc, matches)?)),
        _ => Err(WordsFault::BadCommandLine),
    }
}

/// What the words of a command line ask for, the first of which is the program's name.
///
/// A job is the one that they name, as the contract of `clap` has it, with the options that they name for it. Promised is
/// also which words ask for the help or the version; what those texts say is tested. It fails with `BadCommandLine` if the
/// words are no command line of this program, and with `OutOfMemory` if memory is refused.
pub fn read_words<'w, S: AsStr>(alloc: Global, words: &'w [S]) -> Result<Asked<'w>, WordsFault>
    ensures asks { IfOk result (AsksFor (map S.text words.entry.now)) }
    ensures refused { IfErr result (Refuses (map S.text words.entry.now)) }
{
    let matches = match whole_command(alloc)?.try_get_matches_from(words) {
        Ok(matches) => matches,
        Err(e) if e.kind() == ErrorKind::OutOfMemory => return Err(WordsFault::OutOfMemory),
        Err(e) if e.use_stderr() => return Err(WordsFault::BadCommandLine),
        Err(e) => return Ok(Asked::Text(format!(in alloc; "{e}")?)),
    };
    match matches.subcommand() {
        Some((name, matches)) => asked_command(alloc, name, matches),
        None => Err(WordsFault::BadCommandLine),
    }
}
