//! The commands of lines.
ghost use Rattle.std.specs.Prelude.{◌≡◌, IfErr, option_map};
ghost use Rattle.script_text.specs.Asked.{Reads};
ghost use Rattle.script_text.specs.ScriptLines as script;
ghost use Rattle.script_text.specs.declared.fault.LineFault.TheVariants.{BadLine};

use crate::escapes::read_escaped;
use crate::fault::LineFault;
use crate::words::{
    first_code, first_handle, first_word, read_action, read_field, read_handle, read_mode,
};
use pps_types::{Bytes, Conn, Event, Handle, Request};
use std::alloc::Global;

/// The word of a command that something stands behind.
#[derive(Clone, Copy, Debug, PartialEq, Eq)]
pub(crate) enum Word {
    Open,
    Read,
    Write,
    Close,
    Unlink,
    Mkdir,
    List,
    Notify,
}

#[inline(always)]
fn read_word(word: &[u8]) -> Option<Word>
    ensures { result ≡ script.word_of word.now }
{
    match word {
        b"open" => Some(Word::Open),
        b"read" => Some(Word::Read),
        b"write" => Some(Word::Write),
        b"close" => Some(Word::Close),
        b"unlink" => Some(Word::Unlink),
        b"mkdir" => Some(Word::Mkdir),
        b"list" => Some(Word::List),
        b"notify" => Some(Word::Notify),
        _ => None,
    }
}

// A command of one word.
fn read_alone(conn: Conn, word: &[u8]) -> Result<Event, LineFault>
    ensures reads { Reads (script.asked conn (script.request_alone word.now)) result }
    ensures fault { IfErr result (λ fault. fault ≡ BadLine) }
{
    match word {
        b"attach" => Ok(Event {
            conn,
            request: Request::Attach,
        }),
        b"detach" => Ok(Event {
            conn,
            request: Request::Detach,
        }),
        b"receive" => Ok(Event {
            conn,
            request: Request::Receive,
        }),
        _ => Err(LineFault::BadLine),
    }
}

// A mode, and the text of an open.
fn read_open(alloc: Global, conn: Conn, text: &[u8]) -> Result<Event, LineFault>
    ensures { Reads (script.asked conn (script.open_request text.now)) result }
{
    let Some((letters, text)) = first_word(text) else {
        return Err(LineFault::BadLine);
    };
    let mode = read_mode(letters).ok_or(LineFault::BadLine)?;
    let text = Bytes::from_slice(alloc, text)?;
    let request = Request::Open { mode, text };
    Ok(Event { conn, request })
}

// A handle and a size.
#[inline(always)]
fn read_read(conn: Conn, text: &[u8]) -> Result<Event, LineFault>
    ensures reads { Reads (script.asked conn (script.read_request text.now)) result }
    ensures fault { IfErr result (λ fault. fault ≡ BadLine) }
{
    let Some((handle, size)) = first_handle(text) else {
        return Err(LineFault::BadLine);
    };
    let size = read_field(size).ok_or(LineFault::BadLine)?;
    let request = Request::Read { handle, size };
    Ok(Event { conn, request })
}

// A handle, and what comes after its space, if there is one.
#[inline(always)]
fn handle_and_rest(text: &[u8]) -> Option<(Handle, &[u8])>
    ensures { option_map (λ parts. (parts.0, parts.1.now)) result ≡ script.handle_and_rest text.now }
{
    if let Some(parts) = first_handle(text) {
        return Some(parts);
    }
    let handle = read_handle(text)?;
    Some((handle, &text[text.len()..]))
}

// A handle, and bytes, if there are any.
#[inline(always)]
fn read_write(alloc: Global, conn: Conn, text: &[u8]) -> Result<Event, LineFault>
    ensures { Reads (script.asked conn (script.write_request text.now)) result }
{
    let Some((handle, escaped)) = handle_and_rest(text) else {
        return Err(LineFault::BadLine);
    };
    let bytes = read_escaped(alloc, escaped)?;
    let request = Request::Write { handle, bytes };
    Ok(Event { conn, request })
}

fn read_close(conn: Conn, text: &[u8]) -> Result<Event, LineFault>
    ensures reads { Reads (script.asked conn (script.close_request text.now)) result }
    ensures fault { IfErr result (λ fault. fault ≡ BadLine) }
{
    let handle = read_handle(text).ok_or(LineFault::BadLine)?;
    let request = Request::Close { handle };
    Ok(Event { conn, request })
}

// A handle, an action, a code and a value.
#[inline(always)]
fn read_notify(conn: Conn, text: &[u8]) -> Result<Event, LineFault>
    ensures reads { Reads (script.asked conn (script.notify_request text.now)) result }
    ensures fault { IfErr result (λ fault. fault ≡ BadLine) }
{
    let Some((handle, rest)) = first_handle(text) else {
        return Err(LineFault::BadLine);
    };
    let Some((action, rest)) = first_word(rest) else {
        return Err(LineFault::BadLine);
    };
    let action = read_action(action).ok_or(LineFault::BadLine)?;
    let Some((code, value)) = first_code(rest) else {
        return Err(LineFault::BadLine);
    };
    let value = read_field(value).ok_or(LineFault::BadLine)?;
    let request = Request::Notify {
        handle,
        action,
        code,
        value,
    };
    Ok(Event { conn, request })
}

// A path.
fn read_path(alloc: Global, conn: Conn, word: Word, path: &[u8]) -> Result<Event, LineFault>
    ensures { Reads (script.asked conn (script.path_request word path.now)) result }
{
    let path = Bytes::from_slice(alloc, path)?;
    let request = match word {
        Word::Unlink => Request::Unlink { path },
        Word::Mkdir => Request::Mkdir { path },
        _ => Request::List { path },
    };
    Ok(Event { conn, request })
}

// A command, and what comes after its space.
#[inline(always)]
fn read_with(alloc: Global, conn: Conn, word: Word, text: &[u8]) -> Result<Event, LineFault>
    ensures { Reads (script.asked conn (script.request_with word text.now)) result }
{
    match word {
        Word::Open => read_open(alloc, conn, text),
        Word::Read => read_read(conn, text),
        Word::Write => read_write(alloc, conn, text),
        Word::Close => read_close(conn, text),
        Word::Notify => read_notify(conn, text),
        Word::Unlink | Word::Mkdir | Word::List => read_path(alloc, conn, word, text),
    }
}

// What a connection asks for, known by its first word.
#[inline(never)]
fn read_by_word(alloc: Global, conn: Conn, text: &[u8]) -> Result<Event, LineFault>
    ensures { Reads (script.asked conn (script.request_of text.now)) result }
{
    let Some((word, rest)) = first_word(text) else {
        return read_alone(conn, text);
    };
    let word = read_word(word).ok_or(LineFault::BadLine)?;
    read_with(alloc, conn, word, rest)
}

/// What a connection asks for. BadLine says that it is no command. What is asked most often is known by its letters,
/// without a search for the end of its word.
#[inline(always)]
pub(crate) fn read_event(alloc: Global, conn: Conn, text: &[u8]) -> Result<Event, LineFault>
    ensures { Reads (script.asked conn (script.request_of text.now)) result }
{
    match text {
        [b'r', b'e', b'a', b'd', b' ', rest @ ..] => read_read(conn, rest),
        [b'w', b'r', b'i', b't', b'e', b' ', rest @ ..] => read_write(alloc, conn, rest),
        [b'n', b'o', b't', b'i', b'f', b'y', b' ', rest @ ..] => read_notify(conn, rest),
        b"receive" => Ok(Event {
            conn,
            request: Request::Receive,
        }),
        _ => read_by_word(alloc, conn, text),
    }
}
