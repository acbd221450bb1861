//! Bytes that one value owns. A contract sees them as a list.
ghost use Rattle.std.specs.Prelude.{◌≡◌, ◌≤◌, ◌*◌, ◌↔◌, IfOk, IfSome, IsSome, IsTrue, [], true, length, take, nat_eq};
ghost use Rattle.std.proofs.Common.{rules};
ghost use Rattle.std.specs.Cmp.Rules.{comparing};
ghost use lib.Pointwise.{pointwise};

use std::alloc::{AllocError, Global};
use std::fmt;
use std::marker::Model;

/// How many bytes stand in place.
const SHORT_MAX: usize = 23;

/// At most 23 bytes, which stand in place.
#[derive(Drop)]
struct Short {
    bytes: [u8; SHORT_MAX],
    len: u8,
    /// Nothing. It puts the bytes at a multiple of eight, where they are moved by words.
    aligned: [u64; 0],
}

impl fmt::Debug for Short {
    // What stands in place, without that nothing.
    fn fmt<W: fmt::Write>(&self, f: &mut fmt::Formatter<W>) -> fmt::Result {
        let mut shown = f.debug_struct("Short");
        shown.field("bytes", &self.bytes);
        shown.field("len", &self.len);
        shown.finish()
    }
}

impl Model for Short {
    ghost use Rattle.std.specs.Prelude.{◌≤◌, List, ℕ, take};

    ghost Value = { List ℕ };

    ghost view = { λ a. take a.len a.bytes };

    ghost invariant = { λ a. a.len ≤ 23 };
}

// Copies the first `width` of the bytes and the last `width`, which are all of them. With a width that is known at
// compile time each copy is a single move.
#[inline(always)]
fn copy_ends(out: &mut [u8], content: &[u8], width: usize)
    requires within { width ≤ length content.now }
    requires covered { length content.now ≤ 2 * width }
    requires room { length content.now ≤ length out.old }
    ensures { take (length content.now) out.new ≡ content.now }
{
    let last = content.len() - width;
    out[..width].copy_from_slice(&content[..width]);
    out[last..content.len()].copy_from_slice(&content[last..]);
}

// Copies at most 23 bytes to the start, without a call.
#[inline(always)]
fn copy_short(out: &mut [u8], content: &[u8])
    requires short { length content.now ≤ SHORT_MAX }
    requires room { length content.now ≤ length out.old }
    ensures { take (length content.now) out.new ≡ content.now }
{
    if content.len() >= 16 {
        copy_ends(out, content, 16);
    } else if content.len() >= 8 {
        copy_ends(out, content, 8);
    } else if content.len() >= 4 {
        copy_ends(out, content, 4);
    } else if content.len() >= 2 {
        copy_ends(out, content, 2);
    } else if content.len() == 1 {
        out[0] = content[0];
    }
}

impl Short {
    // A copy of these bytes, which are few enough.
    #[inline(always)]
    fn of(content: &[u8]) -> Short
        requires { length content.now ≤ SHORT_MAX }
        ensures { result ≡ content.now }
    {
        let mut short = Short {
            bytes: [0; SHORT_MAX],
            len: content.len() as u8,
            aligned: [],
        };
        copy_short(&mut short.bytes, content);
        short
    }

    #[inline]
    fn as_slice(&self) -> &[u8]
        ensures { result.now ≡ self.now }
    {
        &self.bytes[..usize::from(self.len)]
    }

    #[inline]
    fn copy(&self) -> Short
        ensures { result ≡ self.now }
    {
        Short {
            bytes: self.bytes,
            len: self.len,
            aligned: [],
        }
    }
}

/// Where bytes stand.
#[derive(Debug, Drop)]
enum Content {
    Short(Short),
    Long(Vec<u8>),
}

/// Bytes that one value owns: a name, a path, a text. Up to 23 bytes stand in place, and take no memory.
#[derive(Debug)]
pub struct Bytes {
    content: Content,
}

// Written out, since each crate that drops one would prove a derived drop anew, with those of all its parts.
impl Drop for Bytes {
    #[inline(always)]
    fn drop(self) {
        let Bytes { content } = self;
        match content {
            Content::Short(_) => {}
            Content::Long(bytes) => drop(bytes),
        }
    }
}

impl Model for Bytes {
    ghost use Rattle.std.specs.Prelude.{List, ℕ};
    ghost use Rattle.pps_types.specs.HeldBytes.{held_bytes};

    ghost Value = { List ℕ };

    ghost view = { λ a. held_bytes a.content };
}

impl Bytes {
    ghost use Rattle.pps_types.specs.HeldBytes.{is_short};

    /// These bytes. It takes no memory, and gives the vector's back where they stand in place.
    pub fn new(content: Vec<u8>) -> Bytes
        ensures { result ≡ content.items }
    {
        let content = if content.len() <= SHORT_MAX {
            Content::Short(Short::of(content.as_slice()))
        } else {
            Content::Long(content)
        };
        Bytes { content }
    }

    /// Whether these bytes are at most 23, so that a copy of them takes no memory.
    #[inline(always)]
    pub fn fits_in_place(content: &[u8]) -> bool
        ensures { result ≡ is_short content.now }
    {
        content.len() <= SHORT_MAX
    }

    /// A copy of these bytes, which are at most 23. It takes no memory.
    #[inline(always)]
    pub fn short(content: &[u8]) -> Bytes
        requires { is_short content.now ≡ true }
        ensures { result ≡ content.now }
    {
        Bytes {
            content: Content::Short(Short::of(content)),
        }
    }

    /// A copy of these bytes, in memory of just that size where they do not stand in place.
    pub fn from_slice(alloc: Global, content: &[u8]) -> Result<Bytes, AllocError>
        ensures { IfOk result (λ bytes. bytes ≡ content.now) }
    {
        if content.len() <= SHORT_MAX {
            return Ok(Bytes {
                content: Content::Short(Short::of(content)),
            });
        }
        let mut copy = Vec::with_capacity(alloc, content.len())?;
        copy.extend_from_slice(content)?;
        Ok(Bytes {
            content: Content::Long(copy),
        })
    }

    #[inline]
    pub fn as_slice(&self) -> &[u8]
        ensures { result.now ≡ self.now }
    {
        match &self.content {
            Content::Short(short) => short.as_slice(),
            Content::Long(content) => content.as_slice(),
        }
    }

    /// A copy of its own.
    #[inline(always)]
    pub fn copy(&self) -> Result<Bytes, AllocError>
        ensures { IfOk result (λ bytes. bytes ≡ self.now) }
    {
        let content = match &self.content {
            Content::Short(short) => Content::Short(short.copy()),
            Content::Long(content) => Content::Long(content.clone()?),
        };
        Ok(Bytes { content })
    }

    #[inline]
    pub fn len(&self) -> usize
        ensures { result ≡ length self.now }
    {
        self.as_slice().len()
    }

    pub fn is_empty(&self) -> bool
        ensures { IsTrue result ↔ (self.now ≡ []) }
    {
        self.as_slice().is_empty()
    }
}

impl PartialEq for Bytes {
    ghost eq = { pointwise nat_eq };

    ghost laws = { Prim.search (comparing, rules) };

    fn eq(&self, other: &Bytes) -> bool {
        self.as_slice() == other.as_slice()
    }
}

impl Eq for Bytes {
    ghost laws = { Prim.search (comparing, rules) };
}
