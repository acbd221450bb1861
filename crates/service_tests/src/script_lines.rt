//! The lines of scripts, and the answers to them.

use crate::scripts::shared;
use pps_types::{Bytes, Conn, Event, Handle, Outcome, Refusal, Request};
use script_text::{
    LineFault, ScriptLine, answers_are_lines, answers_are_told, commands_are_read,
    escapes_are_read, numbers_are_decimal, print_answer, read_command, read_line, says_nothing,
};
use std::alloc::{AllocError, Global};
use std::test::Fail;

/// What a line says that is this request of connection 7.
fn asks(request: Request) -> Option<ScriptLine> {
    let conn = Conn::new(7);
    Some(ScriptLine::Command(Event { conn, request }))
}

/// The line that answers connection 7.
fn answer(alloc: Global, answer: Result<Outcome, Refusal>) -> Result<Vec<u8>, AllocError> {
    let mut line = Vec::new(alloc);
    print_answer(&mut line, Conn::new(7), &answer)?;
    Ok(line)
}

#[test]
fn every_byte_is_printed_and_read_again(rt: HostRuntime) -> Result<(), Fail> {
    escapes_are_read();
    numbers_are_decimal();
    commands_are_read();
    answers_are_told();
    answers_are_lines();
    let alloc = rt.alloc();
    let mut content = Vec::new(alloc);
    for byte in 0..=255u8 {
        content.push(byte)?;
    }
    let data = Outcome::Data(shared(alloc, content.as_slice())?);
    let printed = answer(alloc, Ok(data))?;
    let text = printed.as_slice();
    assert!(rt; text.starts_with(b"7 data 256 "));
    assert!(rt; text.ends_with(b"\n"));
    let mut line = Vec::from_slice(alloc, b"7 write 2 ")?;
    line.extend_from_slice(&text[11..text.len() - 1])?;
    let handle = Handle::new(2);
    let bytes = Bytes::new(content);
    assert_eq!(rt;
        read_line(alloc, line.as_slice())?,
        asks(Request::Write { handle, bytes })
    );
    Ok(())
}

#[test]
fn a_line_says_nothing_or_a_command_or_is_bad(rt: HostRuntime) -> Result<(), Fail> {
    let alloc = rt.alloc();
    assert!(rt; says_nothing(b""));
    assert!(rt; says_nothing(b"# 7 attach"));
    assert!(rt; !says_nothing(b" "));
    let conn = Conn::new(7);
    let request = Request::Attach;
    assert_eq!(rt;
        read_command(alloc, b"7 attach"),
        Ok(Event { conn, request })
    );
    assert_eq!(rt; read_command(alloc, b"7  attach"), Err(LineFault::BadLine));
    assert_eq!(rt; read_command(alloc, b"# 7 attach"), Err(LineFault::BadLine));
    Ok(())
}
