//! The commands of the program, and their options.
ghost use Rattle.std.specs.Prelude.{◌≡◌, IfOk, codes};
ghost use Rattle.clap.specs.Simple.{app_of};
ghost use Rattle.command_line.specs.Words.{AddsService, IsCommand, IsRule, frames_shape, number, option, pps, run_shape, scripts_rule, serve_shape, version_rule, workers_rule};

use clap::{Arg, ArgAction, Command, value_parser};
use std::alloc::{AllocError, Global};

/// The most script files.
const SCRIPTS_MAX: usize = 1_024;

/// What the help ends with.
const EXAMPLE: &str =
    "Example:\n  $ printf '1 attach\\n1 open rwc /gps\\n' | pps run\n  1 ok\n  1 handle 1";

fn limit_option<'a>(alloc: Global) -> Arg<'a>
    ensures { IsRule (number (codes "limit")) result }
{
    Arg::new(alloc, "limit")
        .long("limit")
        .value_name("N")
        .help(
            "How many changes a handle that names no limit may be owed, 1 to 65535 [default: 256]",
        )
        .value_parser(value_parser!(u16))
}

fn image_option<'a>(alloc: Global) -> Arg<'a>
    ensures { IsRule (option (codes "image")) result }
{
    Arg::new(alloc, "image").long("image").value_name("F").help(
        "Begins with the image in file F, in place of an empty service",
    )
}

fn save_option<'a>(alloc: Global) -> Arg<'a>
    ensures { IsRule (option (codes "save")) result }
{
    Arg::new(alloc, "save")
        .long("save")
        .value_name("F")
        .help("Saves the service to file F at the end")
}

// The options of a service's beginning and end.
fn with_service<'a>(alloc: Global, command: Command<'a>) -> Result<Command<'a>, AllocError>
    ensures { IfOk result (AddsService command.entry) }
{
    command
        .arg(image_option(alloc))?
        .arg(save_option(alloc))?
        .arg(limit_option(alloc))
}

fn run_command<'a>(alloc: Global) -> Result<Command<'a>, AllocError>
    ensures { IfOk result (IsCommand run_shape) }
{
    let show = Arg::new(alloc, "show")
        .long("show")
        .help("Shows the values of encoding b and b64 in the answers to reads")
        .action(ArgAction::SetTrue);
    let interactive = Arg::new(alloc, "interactive")
        .long("interactive")
        .help("Goes on after a bad line, which is reported on standard error")
        .action(ArgAction::SetTrue);
    let command = Command::new(alloc, "run")
        .about("Takes a script from standard input, and prints an answer for each of its commands")
        .arg(show)?
        .arg(interactive)?;
    with_service(alloc, command)
}

fn frames_command<'a>(alloc: Global) -> Result<Command<'a>, AllocError>
    ensures { IfOk result (IsCommand frames_shape) }
{
    let command = Command::new(alloc, "frames").about(
        "Takes requests as frames from standard input, and writes a frame for each as its answer",
    );
    with_service(alloc, command)
}

fn workers_option<'a>(alloc: Global) -> Arg<'a>
    ensures { IsRule workers_rule result }
{
    Arg::new(alloc, "workers")
        .long("workers")
        .value_name("N")
        .help("How many workers serve, 1 to 8")
        .required(true)
        .value_parser(value_parser!(u16))
}

fn history_option<'a>(alloc: Global) -> Arg<'a>
    ensures { IsRule (option (codes "history")) result }
{
    Arg::new(alloc, "history")
        .long("history")
        .value_name("H")
        .help(
            "Writes to file H the order in which the messages were served: the connection of each",
        )
}

fn script_files<'a>(alloc: Global) -> Arg<'a>
    ensures { IsRule scripts_rule result }
{
    Arg::new(alloc, "F")
        .help("Script files, 1 to 1024: the one at place K is connection K")
        .required(true)
        .num_args(1..=SCRIPTS_MAX)
        .action(ArgAction::Append)
}

fn serve_command<'a>(alloc: Global) -> Result<Command<'a>, AllocError>
    ensures { IfOk result (IsCommand serve_shape) }
{
    Command::new(alloc, "serve")
        .about("Runs one script per session, in several threads, and prints the answers of each")
        .arg(workers_option(alloc))?
        .arg(history_option(alloc))?
        .arg(script_files(alloc))
}

fn version_option<'a>(alloc: Global) -> Arg<'a>
    ensures { IsRule version_rule result }
{
    Arg::new(alloc, "version")
        .long("version")
        .help("Print version")
        .action(ArgAction::Version)
}

/// The program's commands, as `clap` takes them. OutOfMemory is the only error.
pub(crate) fn whole_command<'a>(alloc: Global) -> Result<Command<'a>, AllocError>
    ensures { IfOk result (λ command. app_of command ≡ pps) }
{
    Command::new(alloc, "pps")
        .bin_name("pps")?
        .version("0.1")
        .about("A Persistent Publish/Subscribe service")
        .after_help(EXAMPLE)
        .disable_version_flag(true)
        .disable_help_subcommand(true)
        .subcommand_required(true)
        .arg(version_option(alloc))?
        .subcommand(run_command(alloc)?)?
        .subcommand(frames_command(alloc)?)?
        .subcommand(serve_command(alloc)?)
}
