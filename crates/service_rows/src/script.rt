//! Scripts, and the ways in which they are played.

use crate::engines::Giving;
use crate::refused::Refused;
use crate::rows::Row;
use crate::slip::Slip;
use crate::{books, devices, engines, images, lists, served, sessions, streams};
use pps_engine::Engine;
use std::alloc::Global;
use std::sync::Wait;
use std::thread::Threads;

/// The way in which a script is played.
#[derive(Clone, Copy)]
pub(crate) enum Way {
    /// Event by event, on an engine.
    Engine(Giving),
    /// The same, where a handle that names no limit may be owed one change.
    LimitOf1,
    /// As one list of events.
    List,
    /// On a book whose trace has room for three entries.
    Book,
    /// As frames that come byte by byte.
    Bytes,
    /// As frames in pieces of seven bytes.
    Pieces,
    /// What it leaves is saved, loaded and restored.
    Image,
    /// As text over devices of which each call fails in turn.
    Devices,
    /// As frames over devices of which each call fails in turn.
    Frames,
    /// As sessions that one worker serves.
    Worker,
    /// As sessions that eight workers serve.
    Workers,
}

impl Way {
    /// The way of this name.
    pub(crate) fn of(name: &[u8]) -> Result<Way, Slip> {
        match name {
            b"step" => Ok(Way::Engine(Giving::ByStep)),
            b"plan" => Ok(Way::Engine(Giving::ByPlan)),
            b"limit" => Ok(Way::LimitOf1),
            b"list" => Ok(Way::List),
            b"book" => Ok(Way::Book),
            b"bytes" => Ok(Way::Bytes),
            b"pieces" => Ok(Way::Pieces),
            b"image" => Ok(Way::Image),
            b"devices" => Ok(Way::Devices),
            b"frames" => Ok(Way::Frames),
            b"worker" => Ok(Way::Worker),
            b"workers" => Ok(Way::Workers),
            _ => Err(Slip::UnknownWay),
        }
    }
}

/// A script: a way, and commands with their answers.
#[derive(Drop)]
pub(crate) struct Script<'t> {
    alloc: Global,
    pub(crate) name: &'t [u8],
    way: Way,
    rows: Vec<Row<'t>>,
}

impl<'t> Script<'t> {
    /// A script without rows, to be played in the way of that name.
    pub(crate) fn new(alloc: Global, name: &'t [u8]) -> Result<Script<'t>, Slip> {
        Ok(Script {
            alloc,
            name,
            way: Way::of(name)?,
            rows: Vec::new(alloc),
        })
    }

    /// Takes one more line: a command, or the answer to the last one.
    pub(crate) fn add(&mut self, line: &'t [u8]) -> Result<(), Slip> {
        match line {
            [b'=', b' ', answer @ ..] => match self.rows.last_mut() {
                None => return Err(Slip::NoCommand),
                Some(row) => row.want(answer),
            },
            _ => self.rows.push(Row::new(self.alloc, line)?)?,
        }
        Ok(())
    }

    /// Plays the script. Gives what is wrong.
    pub(crate) fn play<R: Threads + Wait + Sync>(
        &self,
        rt: &R,
        refused: &mut Refused,
    ) -> Result<(), Slip> {
        let alloc = self.alloc;
        let rows = self.rows.as_slice();
        match self.way {
            Way::Engine(giving) => {
                let mut engine = Engine::new(alloc)?;
                engines::play(alloc, &mut engine, rows, giving, refused)
            }
            Way::LimitOf1 => {
                let mut engine = Engine::with_limit(alloc, 1)?;
                engines::play(alloc, &mut engine, rows, Giving::ByStep, refused)
            }
            Way::List => lists::play(alloc, rows, refused),
            Way::Book => books::play(alloc, rows, 3, refused),
            Way::Bytes => streams::play(alloc, rows, 1, refused),
            Way::Pieces => streams::play(alloc, rows, 7, refused),
            Way::Image => images::play(alloc, rows, refused),
            Way::Devices => devices::play(alloc, rows),
            Way::Frames => served::play(alloc, rows),
            Way::Worker => sessions::play(rt, alloc, rows, 1, refused),
            Way::Workers => sessions::play(rt, alloc, rows, 8, refused),
        }
    }
}
