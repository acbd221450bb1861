//! What is printed.

use itoa::Buffer;
use pps_types::{Bytes, Refusal};
use std::alloc::{AllocError, Global};

/// From how many bytes on a text is printed as their number.
const LONG: usize = 100;

/// The digits of a byte.
const DIGITS: [u8; 16] = *b"0123456789abcdef";

/// Rows, and after each lines of words that are set in.
#[derive(Drop)]
pub(crate) struct Page {
    text: Vec<u8>,
}

impl Page {
    pub(crate) fn new(alloc: Global) -> Page {
        Page {
            text: Vec::new(alloc),
        }
    }

    pub(crate) fn as_slice(&self) -> &[u8] {
        self.text.as_slice()
    }

    /// A row begins.
    pub(crate) fn begin(&mut self, row: &[u8]) -> Result<(), AllocError> {
        self.text.extend_from_slice(row)
    }

    /// The row is done.
    pub(crate) fn end(&mut self) -> Result<(), AllocError> {
        self.text.extend_from_slice(b"\n")
    }

    /// A new line begins, with this word.
    pub(crate) fn line(&mut self, word: &[u8]) -> Result<(), AllocError> {
        self.text.extend_from_slice(b"\n    ")?;
        self.text.extend_from_slice(word)
    }

    pub(crate) fn word(&mut self, word: &[u8]) -> Result<(), AllocError> {
        self.text.extend_from_slice(b" ")?;
        self.text.extend_from_slice(word)
    }

    /// The word, if it is there.
    pub(crate) fn word_if(&mut self, is_there: bool, word: &[u8]) -> Result<(), AllocError> {
        if is_there { self.word(word) } else { Ok(()) }
    }

    pub(crate) fn number(&mut self, number: u64) -> Result<(), AllocError> {
        let mut buffer = Buffer::new();
        self.word(buffer.format(number).as_bytes())
    }

    pub(crate) fn size(&mut self, size: usize) -> Result<(), AllocError> {
        self.number(size as u64)
    }

    pub(crate) fn flag(&mut self, flag: bool) -> Result<(), AllocError> {
        self.word(if flag { b"yes".as_slice() } else { b"no" })
    }

    // A byte of a text, as it is or as an escape.
    fn byte(&mut self, byte: u8) -> Result<(), AllocError> {
        match byte {
            b'\n' => self.text.extend_from_slice(b"\\n"),
            b'\\' => self.text.extend_from_slice(b"\\\\"),
            b' '..=b'~' if byte != b'"' => self.text.extend_from_slice(&[byte]),
            _ => {
                let high = DIGITS[usize::from(byte / 16)];
                let low = DIGITS[usize::from(byte % 16)];
                self.text.extend_from_slice(&[b'\\', b'x', high, low])
            }
        }
    }

    /// A text in quotes, or how many bytes it has.
    pub(crate) fn text(&mut self, text: &[u8]) -> Result<(), AllocError> {
        if text.len() >= LONG {
            self.size(text.len())?;
            return self.word(b"bytes");
        }
        self.text.extend_from_slice(b" \"")?;
        for byte in text {
            self.byte(*byte)?;
        }
        self.text.extend_from_slice(b"\"")
    }

    /// A text, if there is one.
    pub(crate) fn text_or_none(&mut self, text: Option<&[u8]>) -> Result<(), AllocError> {
        match text {
            Some(text) => self.text(text),
            None => self.word(b"none"),
        }
    }

    /// The same of bytes.
    pub(crate) fn bytes_or_none(&mut self, bytes: Option<&Bytes>) -> Result<(), AllocError> {
        match bytes {
            Some(bytes) => self.text(bytes.as_slice()),
            None => self.word(b"none"),
        }
    }

    /// A number, if there is one.
    pub(crate) fn number_or_none(&mut self, number: Option<u64>) -> Result<(), AllocError> {
        match number {
            Some(number) => self.number(number),
            None => self.word(b"none"),
        }
    }

    /// A refusal, with its argument if that is not 0.
    pub(crate) fn refusal(&mut self, refusal: Refusal) -> Result<(), AllocError> {
        self.word(b"refused")?;
        self.word(refusal.name().as_bytes())?;
        if refusal.argument() != 0 {
            self.number(u64::from(refusal.argument()))?;
        }
        Ok(())
    }

    /// The names of a path, each a text.
    pub(crate) fn names(&mut self, names: &[Bytes]) -> Result<(), AllocError> {
        for name in names {
            self.text(name.as_slice())?;
        }
        Ok(())
    }
}
