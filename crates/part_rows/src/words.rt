//! The words of a row, with a space between each two: plain ones, numbers, and texts in quotes.

use crate::slip::Slip;
use pps_types::{Bytes, Event, Handle, Request, digits_up_to, split_at_first};
use script_text::{ScriptLine, read_line};
use std::alloc::Global;

/// The bytes of these characters, which have escapes as the writes of scripts have them.
fn unescaped(alloc: Global, characters: &[u8]) -> Result<Bytes, Slip> {
    let mut line = Vec::from_slice(alloc, b"0 write 0 ")?;
    line.extend_from_slice(characters)?;
    match &read_line(alloc, line.as_slice())? {
        Some(
            ScriptLine::Command(
                Event {
                    request: Request::Write { bytes, .. },
                    ..
                },
            ),
        ) => Ok(bytes.copy()?),
        _ => Err(Slip::BadText),
    }
}

/// The words that are still to be read.
#[derive(Drop)]
pub(crate) struct Words<'a> {
    alloc: Global,
    rest: &'a [u8],
}

impl<'a> Words<'a> {
    pub(crate) fn new(alloc: Global, row: &'a [u8]) -> Words<'a> {
        Words { alloc, rest: row }
    }

    pub(crate) fn alloc(&self) -> Global {
        self.alloc
    }

    pub(crate) fn is_empty(&self) -> bool {
        self.rest.is_empty()
    }

    /// All words were read.
    pub(crate) fn end(&self) -> Result<(), Slip> {
        if self.is_empty() {
            Ok(())
        } else {
            Err(Slip::WordsLeft)
        }
    }

    /// The next word, which is no text.
    pub(crate) fn word(&mut self) -> Result<&'a [u8], Slip> {
        if self.is_empty() {
            return Err(Slip::MissingWord);
        }
        let word = match split_at_first(b' ', self.rest) {
            Some((word, rest)) => {
                self.rest = rest;
                word
            }
            None => {
                let word = self.rest;
                self.rest = &[];
                word
            }
        };
        Ok(word)
    }

    pub(crate) fn long_number(&mut self) -> Result<u64, Slip> {
        let digits = self.word()?;
        digits_up_to(u64::MAX, digits).ok_or(Slip::BadNumber)
    }

    pub(crate) fn number(&mut self) -> Result<u32, Slip> {
        u32::try_from(self.long_number()?)
            .ok()
            .ok_or(Slip::BadNumber)
    }

    pub(crate) fn size(&mut self) -> Result<usize, Slip> {
        usize::try_from(self.long_number()?)
            .ok()
            .ok_or(Slip::BadNumber)
    }

    pub(crate) fn handle(&mut self) -> Result<Handle, Slip> {
        Ok(Handle::new(self.number()?))
    }

    /// The next word, `yes` or `no`.
    pub(crate) fn flag(&mut self) -> Result<bool, Slip> {
        match self.word()? {
            b"yes" => Ok(true),
            b"no" => Ok(false),
            _ => Err(Slip::UnknownWord),
        }
    }

    /// How many times the next piece is repeated: the number before a `*`, or once.
    fn times(&mut self) -> Result<u64, Slip> {
        if self.rest.starts_with(b"\"") {
            return Ok(1);
        }
        let (digits, rest) = split_at_first(b'*', self.rest).ok_or(Slip::BadText)?;
        self.rest = rest;
        digits_up_to(65_536, digits).ok_or(Slip::BadNumber)
    }

    /// What is between the next quotes.
    fn quoted(&mut self) -> Result<&'a [u8], Slip> {
        let [b'"', after @ ..] = self.rest else {
            return Err(Slip::BadText);
        };
        let (characters, rest) = split_at_first(b'"', after).ok_or(Slip::BadText)?;
        self.rest = rest;
        Ok(characters)
    }

    /// Adds the next piece of a text.
    fn add_piece(&mut self, text: &mut Vec<u8>) -> Result<(), Slip> {
        let times = self.times()?;
        let piece = unescaped(self.alloc, self.quoted()?)?;
        for _ in 0..times {
            text.extend_from_slice(piece.as_slice())?;
        }
        Ok(())
    }

    /// The next word, a text: a piece in quotes, or several with `+` between each two.
    pub(crate) fn text(&mut self) -> Result<Vec<u8>, Slip> {
        let mut text = Vec::new(self.alloc);
        for _ in 0..self.rest.len() {
            self.add_piece(&mut text)?;
            match self.rest {
                [] => return Ok(text),
                [b' ', rest @ ..] => {
                    self.rest = rest;
                    return Ok(text);
                }
                [b'+', rest @ ..] => self.rest = rest,
                _ => return Err(Slip::BadText),
            }
        }
        Err(Slip::MissingWord)
    }

    pub(crate) fn bytes(&mut self) -> Result<Bytes, Slip> {
        Ok(Bytes::new(self.text()?))
    }

    /// The words that are left, texts all.
    pub(crate) fn texts(&mut self) -> Result<Vec<Vec<u8>>, Slip> {
        let mut texts = Vec::new(self.alloc);
        for _ in 0..self.rest.len() {
            if self.is_empty() {
                break;
            }
            texts.push(self.text()?)?;
        }
        Ok(texts)
    }
}
