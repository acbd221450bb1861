//! Lines of images, read from pieces.
ghost use Rattle.std.specs.Prelude.{◌≡◌, ◌<◌, ◌+◌, ◌^◌, ◌∷◌, [], List, ℕ, length, IfOk};
ghost use Rattle.image_text.specs.Lines.{IsPlain};
ghost use Rattle.pps_persist.specs.Begun.{has_room, IsReading, IsBegun, TakesBytes, Finishes};

use crate::errors::{Fault, LoadError};
use crate::lines::take_line;
use crate::place::Place;
use pps_engine::Engine;
use pps_types::split_at_first;
use std::alloc::Global;

/// So many bytes without a line feed begin no line of an image.
const LINE_MAX: usize = 65_536;

/// What was taken of an image: its whole lines, and the one that has begun.
#[derive(Drop)]
pub(crate) struct Reading {
    /// Where the whole lines lead.
    place: Place,
    /// The line that has begun.
    line: Vec<u8>,
    /// Its number, from 1 on.
    number: u64,
}

impl Reading {
    /// Nothing was taken yet.
    pub(crate) fn new(alloc: Global) -> Reading
        ensures { IsReading [] result }
    {
        Reading {
            place: Place::First,
            line: Vec::new(alloc),
            number: 1,
        }
    }

    // Whether the line may have so many bytes more. Behind the end it may have none.
    fn has_room(&self, count: usize) -> bool
        ensures { result ≡ has_room self.now.place (length self.now.line.items + count) }
    {
        match &self.place {
            Place::Behind(_) => false,
            _ => count < LINE_MAX.saturating_sub(self.line.len()),
        }
    }

    // Takes bytes without a line feed.
    fn extend(mut self, bytes: &[u8]) -> Result<Reading, LoadError>
        requires { IsPlain bytes.now }
        ensures goes { TakesBytes self bytes.now result }
        ensures number { IfOk result (λ new. new.number ≡ self.number) }
    {
        if bytes.is_empty() {
            return Ok(self);
        }
        if !self.has_room(bytes.len()) {
            return Err(LoadError::BadImage { line: self.number });
        }
        self.line.extend_from_slice(bytes)?;
        Ok(self)
    }

    // Takes a line feed.
    fn end_line(self, alloc: Global) -> Result<Reading, LoadError>
        requires begun { IsBegun self }
        requires number { self.number + 1 < 2 ^ 64 }
        ensures goes { TakesBytes self (10 ∷ []) result }
        ensures number { IfOk result (λ new. new.number ≡ self.number + 1) }
    {
        let Reading {
            place,
            mut line,
            number,
        } = self;
        match take_line(alloc, place, &line) {
            Err(Fault::OutOfMemory) => Err(LoadError::OutOfMemory),
            Err(Fault::Refused) => Err(LoadError::BadImage { line: number }),
            Ok(place) => {
                line.clear();
                Ok(Reading {
                    place,
                    line,
                    number: number + 1,
                })
            }
        }
    }

    /// Takes the next piece of the input.
    pub(crate) fn take_piece(self, alloc: Global, piece: &[u8]) -> Result<Reading, LoadError>
        requires begun { IsBegun self }
        requires number { self.number + length piece.now < 2 ^ 64 }
        ensures { TakesBytes self piece.now result }
    {
        let mut reading = self;
        let mut rest = piece;
        'lines: while let Some((line, behind)) = split_at_first(b'\n', rest) {
            reading = reading.extend(line)?.end_line(alloc)?;
            rest = behind;
        }
        reading.extend(rest)
    }

    /// The engine of the image, where the input ends here.
    pub(crate) fn finish(self) -> Result<Engine, LoadError>
        ensures { (taken : List ℕ) → IsReading taken self → Finishes taken result }
    {
        let Reading { place, number, .. } = self;
        let Place::Behind(engine) = place else {
            return Err(LoadError::BadImage { line: number });
        };
        Ok(engine)
    }
}
