//! Requests of many clients, as one stream of frames.

use crate::digest::{Digest, Sums};
use crate::fault::Fault;
use frame_codec::encode_request;
use pps_engine::Engine;
use pps_frame::run;
use pps_types::{Action, Bytes, Conn, Device, Event, Exchange, Handle, Mode, Request};
use std::alloc::Global;

/// Who may do what with what an open gives: `r`, `rw` and `rwc`.
pub(crate) const READS: Mode = Mode {
    r: true,
    w: false,
    c: false,
    t: false,
};

pub(crate) const ASKS: Mode = Mode {
    r: true,
    w: true,
    c: false,
    t: false,
};

pub(crate) const MAKES: Mode = Mode {
    r: true,
    w: true,
    c: true,
    t: false,
};

/// A handle, and whose it is.
#[derive(Clone, Copy, Drop)]
pub(crate) struct Opened {
    pub conn: u16,
    pub handle: u32,
}

/// Requests as a stream of frames.
#[derive(Drop)]
pub(crate) struct Requests {
    alloc: Global,
    stream: Vec<u8>,
    opened: u32,
}

impl Requests {
    pub(crate) fn new(alloc: Global) -> Requests {
        Requests {
            alloc,
            stream: Vec::new(alloc),
            opened: 0,
        }
    }

    fn send(&mut self, conn: u16, request: Request) -> Result<(), Fault> {
        let event = Event {
            conn: Conn::new(conn),
            request,
        };
        let frame = encode_request(self.alloc, &event)?;
        self.stream.extend_from_slice(frame.as_slice())?;
        Ok(())
    }

    /// The connections from 1 to this one attach.
    pub(crate) fn attach(&mut self, last: u16) -> Result<(), Fault> {
        for conn in 1..=last {
            self.send(conn, Request::Attach)?;
        }
        Ok(())
    }

    /// An open that is not refused, so that its handle is known.
    pub(crate) fn open(&mut self, conn: u16, mode: Mode, text: &[u8]) -> Result<Opened, Fault> {
        let text = Bytes::from_slice(self.alloc, text)?;
        self.send(conn, Request::Open { mode, text })?;
        self.opened = self.opened.wrapping_add(1);
        Ok(Opened {
            conn,
            handle: self.opened,
        })
    }

    pub(crate) fn read(&mut self, opened: Opened, size: u32) -> Result<(), Fault> {
        let handle = Handle::new(opened.handle);
        self.send(opened.conn, Request::Read { handle, size })
    }

    pub(crate) fn write(&mut self, opened: Opened, text: &[u8]) -> Result<(), Fault> {
        let handle = Handle::new(opened.handle);
        let bytes = Bytes::from_slice(self.alloc, text)?;
        self.send(opened.conn, Request::Write { handle, bytes })
    }

    pub(crate) fn close(&mut self, opened: Opened) -> Result<(), Fault> {
        let handle = Handle::new(opened.handle);
        self.send(opened.conn, Request::Close { handle })
    }

    /// A pulse is asked for, with the handle as its value.
    pub(crate) fn arm(&mut self, opened: Opened) -> Result<(), Fault> {
        let request = Request::Notify {
            handle: Handle::new(opened.handle),
            action: Action::Pollarm,
            code: 5,
            value: opened.handle,
        };
        self.send(opened.conn, request)
    }

    pub(crate) fn receive(&mut self, conn: u16) -> Result<(), Fault> {
        self.send(conn, Request::Receive)
    }

    pub(crate) fn make_directory(&mut self, conn: u16, path: &[u8]) -> Result<(), Fault> {
        let path = Bytes::from_slice(self.alloc, path)?;
        self.send(conn, Request::Mkdir { path })
    }

    pub(crate) fn unlink(&mut self, conn: u16, path: &[u8]) -> Result<(), Fault> {
        let path = Bytes::from_slice(self.alloc, path)?;
        self.send(conn, Request::Unlink { path })
    }

    pub(crate) fn list(&mut self, conn: u16, path: &[u8]) -> Result<(), Fault> {
        let path = Bytes::from_slice(self.alloc, path)?;
        self.send(conn, Request::List { path })
    }
}

// Serves a stream to a new service, and adds its answers to the sums.
fn serve(alloc: Global, stream: &[u8], sums: &mut Digest) -> Result<(), Fault> {
    let mut engine = Engine::new(alloc)?;
    let mut exchange = Exchange::new(alloc, Device::new(stream), Device::new(sums))?;
    run(alloc, &mut engine, &mut exchange)?;
    Ok(())
}

/// What a new service answers.
pub(crate) fn served(alloc: Global, requests: &Requests) -> Result<Sums, Fault> {
    let mut sums = Digest::new(alloc);
    serve(alloc, requests.stream.as_slice(), &mut sums)?;
    Ok(sums.finish()?)
}
