//! Rows of the lines of scripts, and of the answers to them.

use crate::outcomes::read_answer;
use crate::page::Page;
use crate::slip::Slip;
use crate::words::Words;
use pps_types::{Action, Bytes, Conn, Event, Handle, Mode, Request};
use script_text::{ScriptLine, print_answer, print_shown, read_line};
use std::alloc::AllocError;

/// Answers a row of the crate `script_text`.
pub(crate) fn answer(words: &mut Words<'_>, page: &mut Page) -> Result<(), Slip> {
    page.line(b"is")?;
    match words.word()? {
        b"line" => answer_line(words, page),
        b"answer" => {
            let line = Vec::new(words.alloc());
            answer_answer(line, words, page)
        }
        b"answer-after" => {
            let line = words.text()?;
            answer_answer(line, words, page)
        }
        b"shown" => answer_shown(words, page),
        _ => Err(Slip::UnknownWord),
    }
}

// What a line says.
fn answer_line(words: &mut Words<'_>, page: &mut Page) -> Result<(), Slip> {
    let line = words.text()?;
    match &read_line(words.alloc(), line.as_slice())? {
        Some(ScriptLine::Command(Event { conn, request })) => {
            page.word(b"connection")?;
            page.number(u64::from(conn.number()))?;
            put_request(request, page)?;
        }
        Some(ScriptLine::Nothing) => page.word(b"nothing")?,
        None => page.word(b"bad")?,
    }
    Ok(())
}

// The line that answers a connection, after what was printed before.
fn answer_answer(before: Vec<u8>, words: &mut Words<'_>, page: &mut Page) -> Result<(), Slip> {
    let mut line = before;
    let conn = u16::try_from(words.number()?).ok().ok_or(Slip::BadNumber)?;
    print_answer(&mut line, Conn::new(conn), &read_answer(words)?)?;
    page.text(line.as_slice())?;
    Ok(())
}

// The values of a text that was read, as they are shown.
fn answer_shown(words: &mut Words<'_>, page: &mut Page) -> Result<(), Slip> {
    let text = words.text()?;
    let shown = print_shown(words.alloc(), text.as_slice())?;
    page.text(shown.as_slice())?;
    Ok(())
}

// A request, as its kind and what it carries.
fn put_request(request: &Request, page: &mut Page) -> Result<(), AllocError> {
    match request {
        Request::Attach => page.word(b"attach"),
        Request::Detach => page.word(b"detach"),
        Request::Receive => page.word(b"receive"),
        Request::Open { mode, text } => put_open(*mode, text, page),
        Request::Read { handle, size } => put_read(*handle, *size, page),
        Request::Write { handle, bytes } => {
            put_handle(b"write", *handle, page)?;
            page.text(bytes.as_slice())
        }
        Request::Close { handle } => put_handle(b"close", *handle, page),
        Request::Unlink { path } => put_path(b"unlink", path, page),
        Request::Mkdir { path } => put_path(b"mkdir", path, page),
        Request::List { path } => put_path(b"list", path, page),
        Request::Notify {
            handle,
            action,
            code,
            value,
        } => {
            put_handle(b"notify", *handle, page)?;
            put_notify(*action, *code, *value, page)
        }
    }
}

// A request of a handle.
fn put_handle(word: &[u8], handle: Handle, page: &mut Page) -> Result<(), AllocError> {
    page.word(word)?;
    page.number(u64::from(handle.number()))
}

// A request of a path.
fn put_path(word: &[u8], path: &Bytes, page: &mut Page) -> Result<(), AllocError> {
    page.word(word)?;
    page.text(path.as_slice())
}

// A read.
fn put_read(handle: Handle, size: u32, page: &mut Page) -> Result<(), AllocError> {
    put_handle(b"read", handle, page)?;
    page.number(u64::from(size))
}

// What a notify asks for.
fn put_notify(action: Action, code: u8, value: u32, page: &mut Page) -> Result<(), AllocError> {
    page.word(match action {
        Action::Poll => b"poll".as_slice(),
        Action::Pollarm => b"pollarm",
        Action::Tranarm => b"tranarm",
    })?;
    page.number(u64::from(code))?;
    page.number(u64::from(value))
}

// An open.
fn put_open(mode: Mode, text: &Bytes, page: &mut Page) -> Result<(), AllocError> {
    page.word(b"open")?;
    page.word_if(mode.r, b"r")?;
    page.word_if(mode.w, b"w")?;
    page.word_if(mode.c, b"c")?;
    page.word_if(mode.t, b"t")?;
    page.text(text.as_slice())
}
