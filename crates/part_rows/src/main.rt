//! Reads rows from its input, each of which gives a text to a part of the service, and prints each with what the part
//! makes of it. Empty lines and comments, which begin with `#`, are printed as they are.
#![tactic(auto)]

mod attributes;
mod blocks;
mod filters;
mod images;
mod lines;
mod opens;
mod outcomes;
mod page;
mod refusals;
mod scripts;
mod slip;
mod texts;
mod types;
mod words;

use attr_text::first_line;
use page::Page;
use slip::{BadRow, Slip};
use std::alloc::Global;
use std::io::{self, Read, Write};
use std::process::ExitCode;
use words::Words;

/// Puts what a row gives on the page. Its first word says which part it is for.
fn answer_row(alloc: Global, row: &[u8], page: &mut Page) -> Result<(), Slip> {
    let mut words = Words::new(alloc, row);
    match words.word()? {
        b"type" => types::answer(&mut words, page)?,
        b"text" => texts::answer(&mut words, page)?,
        b"attribute" => attributes::answer(&mut words, page)?,
        b"filter" => filters::answer(&mut words, page)?,
        b"block" => blocks::answer(&mut words, page)?,
        b"open" => opens::answer(&mut words, page)?,
        b"image" => images::answer(&mut words, page)?,
        b"script" => scripts::answer(&mut words, page)?,
        _ => return Err(Slip::UnknownWord),
    }
    words.end()
}

/// Puts a line on the page, and if it is a row, what it gives.
fn answer_line(alloc: Global, line: &[u8], page: &mut Page) -> Result<(), Slip> {
    page.begin(line)?;
    match line {
        [] | [b'#', ..] => {}
        _ => answer_row(alloc, line, page)?,
    }
    page.end()?;
    Ok(())
}

/// Puts all lines of the input on the page, up to a row that can't be answered.
fn answer_lines(alloc: Global, input: &[u8], page: &mut Page) -> Result<(), BadRow> {
    let mut rest = input;
    let mut line_number = 0u64;
    for _ in 0..input.len() {
        if rest.is_empty() {
            break;
        }
        let (line, after) = first_line(rest);
        rest = after;
        line_number = line_number.saturating_add(1);
        if let Err(slip) = answer_line(alloc, line, page) {
            return Err(BadRow { line_number, slip });
        }
    }
    Ok(())
}

fn main(rt: HostRuntime) -> io::Result<ExitCode> {
    let mut input = Vec::new(rt.alloc());
    rt.reader().read_to_end(&mut input)?;
    let mut page = Page::new(rt.alloc());
    let answered = answer_lines(rt.alloc(), input.as_slice(), &mut page);
    io::writer(&rt).write_all(page.as_slice())?;
    if let Err(bad_row) = answered {
        eprintln!(rt; "part_rows: {bad_row}")?;
        return Ok(ExitCode::FAILURE);
    }
    Ok(ExitCode::SUCCESS)
}
