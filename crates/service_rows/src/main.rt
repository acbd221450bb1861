//! Plays scripts in the ways that the service has, with each call that is refused memory made once more. A script is a line `@`
//! with the name of the way, and then commands, each with the line `=` of its answer. For each script a line is printed, the
//! first call that was refused memory is reported as an error, and the program ends at the first script that goes wrong.
#![tactic(auto)]

mod books;
mod devices;
mod engines;
mod failing;
mod images;
mod lists;
mod refused;
mod rows;
mod script;
mod served;
mod sessions;
mod slip;
mod streams;

use pps_types::split_at_first;
use refused::Refused;
use script::Script;
use slip::Slip;
use std::alloc::Global;
use std::io::{ErrorKind, Read, Write};
use std::process::ExitCode;
use std::sync::Wait;
use std::thread::Threads;

/// The status where memory was wanting.
const WANTING: u8 = 3;

// Plays a script, if there is one, and prints its name.
fn play<R: Threads + Wait + Sync>(
    rt: &R,
    script: Option<Script<'_>>,
    refused: &mut Refused,
    page: &mut Vec<u8>,
) -> Result<(), Slip> {
    let Some(script) = script else {
        return Ok(());
    };
    script.play(rt, refused)?;
    page.extend_from_slice(script.name)?;
    page.extend_from_slice(b"\n")?;
    Ok(())
}

// Plays all scripts of the input, up to one that goes wrong.
fn play_all<R: Threads + Wait + Sync>(
    rt: &R,
    alloc: Global,
    input: &[u8],
    refused: &mut Refused,
    page: &mut Vec<u8>,
) -> Result<(), Slip> {
    let mut rest = input;
    let mut script = None;
    for _ in 0..input.len() {
        let Some((line, after)) = split_at_first(b'\n', rest) else {
            break;
        };
        rest = after;
        match line {
            [] | [b'#', ..] => {}
            [b'@', b' ', name @ ..] => {
                play(rt, script.take(), refused, page)?;
                script = Some(Script::new(alloc, name)?);
            }
            _ => match &mut script {
                Some(script) => script.add(line)?,
                None => return Err(Slip::UnknownWay),
            },
        }
    }
    play(rt, script, refused, page)
}

// Plays all scripts of a reader.
fn play_input<R: AllocGlobal + Threads + Wait + Sync, I: Read>(
    rt: &R,
    input: &mut I,
    refused: &mut Refused,
    page: &mut Vec<u8>,
) -> Result<(), Slip> {
    let alloc = rt.alloc();
    let mut text = Vec::new(alloc);
    match input.read_to_end(&mut text) {
        Ok(_) => play_all(rt, alloc, text.as_slice(), refused, page),
        Err(e) if e.kind() == ErrorKind::OutOfMemory => Err(Slip::OutOfMemory),
        Err(_) => Err(Slip::CannotRead),
    }
}

// Reports what was refused memory and what went wrong. It gives the exit status.
fn tell<E: Write>(refused: &Refused, played: Result<(), Slip>, errors: &mut E) -> u8 {
    if let Some(call) = refused.first() {
        let _ = writeln!(errors, "service_rows: {call}: refused memory");
    }
    let Err(slip) = played else {
        return 0;
    };
    let _ = writeln!(errors, "service_rows: {slip}");
    match slip {
        Slip::OutOfMemory => WANTING,
        _ => 1,
    }
}

fn main(rt: HostRuntime) -> ExitCode {
    let mut refused = Refused::new();
    let mut page = Vec::new(rt.alloc());
    let played = play_input(&rt, &mut rt.stdin(), &mut refused, &mut page);
    let written = match rt.stdout().write_all(page.as_slice()) {
        Ok(()) => played,
        Err(_) => Err(Slip::CannotWrite),
    };
    ExitCode::from(tell(&refused, written, &mut rt.stderr()))
}
