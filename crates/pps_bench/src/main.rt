//! Measures the parts of the service. The first word names the work, the second how often it is done; without words
//! it does nothing.
#![tactic(auto)]

mod lines;
mod objects;
mod texts;
mod trees;

use attr_text::{print_line, read_write};
use lines::set_line;
use objects::{print_object_often, print_some_often, write_often};
use pps_filter::read_filter;
use pps_types::Refusal;
use std::alloc::{AllocError, Global};
use std::{env, io};
use texts::{Choice, write_names_often, write_text_often};
use trees::{change_often, find_often};

/// That line so many times.
fn repeated(alloc: Global, line: &[u8], count: u32) -> Result<Vec<u8>, AllocError> {
    let mut text = Vec::new(alloc);
    for _ in 0..count {
        text.extend_from_slice(line)?;
    }
    Ok(text)
}

/// Reads a text of so many lines that often, and counts the lines.
fn read_often(alloc: Global, line: &[u8], count: u32, rounds: u32) -> Result<u64, Refusal> {
    let text = repeated(alloc, line, count)?;
    let mut done = 0u64;
    for _ in 0..rounds {
        let read = read_write(alloc, text.as_slice())?;
        done = done.wrapping_add(read.lines().len() as u64);
    }
    Ok(done)
}

/// Prints a line that often, and counts the bytes.
fn print_often(alloc: Global, rounds: u32) -> Result<u64, Refusal> {
    let line = set_line(alloc, b"temperature", b"21.5 degrees", true)?;
    let mut done = 0u64;
    for _ in 0..rounds {
        done = done.wrapping_add(print_line(alloc, &line)?.len() as u64);
    }
    Ok(done)
}

/// Asks a filter of four lines that often, and counts those that match.
fn match_often(alloc: Global, rounds: u32) -> Result<u64, Refusal> {
    let filter = read_filter(alloc, b"altitude+speed>60+city!=Rome")?;
    let mut lines = Vec::new(alloc);
    lines.push(set_line(alloc, b"speed", b"61", false)?)?;
    lines.push(set_line(alloc, b"city", b"Rome", false)?)?;
    lines.push(set_line(alloc, b"altitude", b"12", false)?)?;
    lines.push(set_line(alloc, b"heading", b"270", false)?)?;
    let mut done = 0u64;
    for _ in 0..rounds {
        for line in &lines {
            if filter.matches(line) {
                done = done.wrapping_add(1);
            }
        }
    }
    Ok(done)
}

fn done(alloc: Global, work: &str, rounds: u32) -> Result<u64, Refusal> {
    match work {
        "read_short" => read_often(alloc, b"a::\n", 16_384, rounds),
        "read_usual" => read_often(
            alloc,
            b"[n]speed:n:123\nstate::on the road\n-gone\n",
            1,
            rounds,
        ),
        "read_long" => read_often(
            alloc,
            b"name:enc:a value of some length, as a text of several words has it, and then some more of it, until it is long\n",
            500,
            rounds,
        ),
        "print" => print_often(alloc, rounds),
        "match" => match_often(alloc, rounds),
        "find" => find_often(alloc, rounds),
        "write_1_of_10" => write_often(alloc, 10, 1, rounds),
        "write_8_of_10" => write_often(alloc, 10, 8, rounds),
        "write_64_of_10" => write_often(alloc, 10, 64, rounds),
        "write_1_of_1000" => write_often(alloc, 1_000, 1, rounds),
        "write_8_of_1000" => write_often(alloc, 1_000, 8, rounds),
        "write_64_of_1000" => write_often(alloc, 1_000, 64, rounds),
        "write_line" => write_text_often(alloc, b"speed:n:123\n", rounds),
        "write_marks" => write_text_often(alloc, b"[n]a::1\n[-n]a::2\n[n]a::3\n-a\n", rounds),
        "write_colliding" => write_names_often(alloc, Choice::Colliding, rounds),
        "write_others" => write_names_often(alloc, Choice::Any, rounds),
        "print_10" => print_object_often(alloc, 10, rounds),
        "print_1000" => print_object_often(alloc, 1_000, rounds),
        "print_3_of_1000" => print_some_often(alloc, 1_000, rounds),
        "change_few" => change_often(alloc, 16, rounds),
        "change_many" => change_often(alloc, 256, rounds),
        _ => Ok(0),
    }
}

fn main(rt: HostRuntime) -> io::Result<()> {
    let words: Vec<String> = env::args(&rt)?.collect(rt.alloc())?;
    let (Some(work), Some(rounds)) = (words.get(1), words.get(2)) else {
        return Ok(());
    };
    let Ok(rounds) = rounds.as_str().parse::<u32>() else {
        return Ok(());
    };
    match done(rt.alloc(), work.as_str(), rounds) {
        Ok(count) => println!(rt; "{count}"),
        Err(refusal) => println!(rt; "{refusal}"),
    }
}
