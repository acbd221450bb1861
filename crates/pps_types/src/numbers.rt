//! The numbers of connections, handles, objects and directories. A contract sees each as a number.
ghost use Rattle.std.specs.Prelude.{◌≡◌, ◌<◌, ◌^◌};

use std::marker::Model;

/// The number of a connection. A service takes 1 to 1,024; a message may carry any number of 16 bits.
#[derive(Clone, Copy, Debug, PartialEq, Eq)]
pub struct Conn(u16);

impl Model for Conn {
    ghost use Rattle.std.specs.Prelude.{ℕ};

    ghost Value = { ℕ };

    ghost view = { λ a. a.0 };

    ghost inverse = { λ n. record { 0 = n } };
}

impl Conn {
    pub fn new(number: u16) -> Conn
        ensures { result ≡ number }
    {
        Conn(number)
    }

    pub fn number(self) -> u16
        ensures same { result ≡ self }
        ensures range { self < 2 ^ 16 }
    {
        let Conn(number) = self;
        number
    }
}

/// The number of one open. Numbers rise from 1 and are never used again.
#[derive(Clone, Copy, Debug, PartialEq, Eq)]
pub struct Handle(u32);

impl Model for Handle {
    ghost use Rattle.std.specs.Prelude.{ℕ};

    ghost Value = { ℕ };

    ghost view = { λ a. a.0 };

    ghost inverse = { λ n. record { 0 = n } };
}

impl Handle {
    pub fn new(number: u32) -> Handle
        ensures { result ≡ number }
    {
        Handle(number)
    }

    pub fn number(self) -> u32
        ensures same { result ≡ self }
        ensures range { self < 2 ^ 32 }
    {
        let Handle(number) = self;
        number
    }
}

/// The number of an object, never used again.
#[derive(Clone, Copy, Debug, PartialEq, Eq)]
pub struct ObjId(u64);

impl Model for ObjId {
    ghost use Rattle.std.specs.Prelude.{ℕ};

    ghost Value = { ℕ };

    ghost view = { λ a. a.0 };

    ghost inverse = { λ n. record { 0 = n } };
}

impl ObjId {
    pub fn new(number: u64) -> ObjId
        ensures { result ≡ number }
    {
        ObjId(number)
    }

    pub fn number(self) -> u64
        ensures same { result ≡ self }
        ensures range { self < 2 ^ 64 }
    {
        let ObjId(number) = self;
        number
    }
}

/// The number of a directory, never used again. The root is 0.
#[derive(Clone, Copy, Debug, PartialEq, Eq)]
pub struct DirId(u64);

impl Model for DirId {
    ghost use Rattle.std.specs.Prelude.{ℕ};

    ghost Value = { ℕ };

    ghost view = { λ a. a.0 };

    ghost inverse = { λ n. record { 0 = n } };
}

impl DirId {
    pub fn new(number: u64) -> DirId
        ensures { result ≡ number }
    {
        DirId(number)
    }

    pub fn number(self) -> u64
        ensures same { result ≡ self }
        ensures range { self < 2 ^ 64 }
    {
        let DirId(number) = self;
        number
    }
}
