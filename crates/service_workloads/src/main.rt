//! Jobs that users of the service wait for, as a benchmark. The first word names the work, or is `all`; the second is the
//! seed of its input, and a third says how many rounds it has. Without words it does nothing. It prints how many bytes the
//! work gave, and their digest. Where a work is at fault it prints the fault, and ends with status 1.
#![tactic(auto)]

mod chance;
mod cluster;
mod devices;
mod digest;
mod fanout;
mod fault;
mod images;
mod requests;
mod telephony;
mod text;
mod trips;

use chance::Chance;
use digest::Sums;
use fault::Fault;
use requests::{Requests, served};
use std::alloc::Global;
use std::process::ExitCode;
use std::{env, io};

/// The works, which `all` does one after the other.
const WORKS: [&'static str; 6] = [
    "cluster",
    "fanout",
    "telephony",
    "devices",
    "trips",
    "images",
];

/// How many rounds a work has where none are named.
fn usual_rounds(work: &str) -> u32 {
    match work {
        "cluster" => 500_000,
        "fanout" => 4_500,
        "telephony" => 120_000,
        "devices" => 12_000,
        "trips" => 50_000,
        _ => 12,
    }
}

/// The requests of a work.
fn requests_of(
    alloc: Global,
    work: &str,
    chance: &mut Chance,
    rounds: u32,
) -> Result<Requests, Fault> {
    let mut requests = Requests::new(alloc);
    match work {
        "cluster" => cluster::ask(alloc, &mut requests, chance, rounds)?,
        "fanout" => fanout::ask(alloc, &mut requests, chance, rounds)?,
        "telephony" => telephony::ask(alloc, &mut requests, chance, rounds)?,
        "devices" => devices::ask(alloc, &mut requests, chance, rounds)?,
        "trips" => trips::ask(alloc, &mut requests, chance, rounds)?,
        _ => (),
    }
    Ok(requests)
}

/// What a work gives.
fn done(alloc: Global, work: &str, seed: u64, rounds: Option<u32>) -> Result<Sums, Fault> {
    let mut chance = Chance::new(seed);
    let rounds = rounds.unwrap_or(usual_rounds(work));
    if work == "images" {
        return images::kept(alloc, &mut chance, rounds);
    }
    let requests = requests_of(alloc, work, &mut chance, rounds)?;
    served(alloc, &requests)
}

/// Prints what a work gave, or its fault. Gives the exit status.
fn print_work(
    rt: &HostRuntime,
    work: &str,
    seed: u64,
    rounds: Option<u32>,
) -> io::Result<ExitCode> {
    match done(rt.alloc(), work, seed, rounds) {
        Ok(digest) => {
            println!(rt; "{work} {seed}: {digest}")?;
            Ok(ExitCode::SUCCESS)
        }
        Err(fault) => {
            println!(rt; "{work} {seed}: {fault}")?;
            Ok(ExitCode::FAILURE)
        }
    }
}

/// Prints what each of the works gave. Gives the exit status: a fault of one is one of all.
fn print_all(rt: &HostRuntime, seed: u64, rounds: Option<u32>) -> io::Result<ExitCode> {
    let mut status = ExitCode::SUCCESS;
    for work in WORKS {
        let ended = print_work(rt, work, seed, rounds)?;
        if ended != ExitCode::SUCCESS {
            status = ended;
        }
    }
    Ok(status)
}

fn main(rt: HostRuntime) -> io::Result<ExitCode> {
    let words: Vec<String> = env::args(&rt)?.collect(rt.alloc())?;
    let (Some(work), Some(seed)) = (words.get(1), words.get(2)) else {
        return Ok(ExitCode::SUCCESS);
    };
    let Ok(seed) = seed.as_str().parse::<u64>() else {
        return Ok(ExitCode::SUCCESS);
    };
    let rounds = match words.get(3) {
        Some(word) => word.as_str().parse::<u32>().ok(),
        None => None,
    };
    if work.as_str() == "all" {
        return print_all(&rt, seed, rounds);
    }
    print_work(&rt, work.as_str(), seed, rounds)
}
