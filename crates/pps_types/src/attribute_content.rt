//! What an attribute has besides its name, held in one text, and lent.
ghost use Rattle.std.specs.Prelude.{◌≡◌, true, IfOk, length};
ghost use Rattle.pps_types.specs.AttributeContent.{content_text};
ghost use Rattle.std.proofs.Common.{rules};
ghost use Rattle.std.specs.Cmp.Rules.{comparing};
ghost use Rattle.pps_types.specs.HeldBytes.{is_short};

use crate::bytes::Bytes;
use std::alloc::{AllocError, Global};
use std::marker::Model;

/// The encoding and the value of an attribute, as their owner lends them. Where `n` is true it is nonpersistent.
#[derive(Debug, Drop)]
pub struct AttributeContentRef<'a> {
    pub(crate) text: &'a [u8],
    // How long the encoding is.
    pub(crate) enc_len: u8,
    pub(crate) n: bool,
}

impl<'a> Model for AttributeContentRef<'a> {
    ghost use Rattle.pps_types.specs.AttributeContent.{Content, content_in, IsContentText};

    ghost Value = { Content };

    ghost view = { λ a. content_in a.enc_len a.n a.text.now };

    ghost invariant = { λ a. IsContentText a.enc_len a.n a.text.now };
}

impl<'a> AttributeContentRef<'a> {
    /// Both in one text: `encoding:value`.
    #[inline(always)]
    pub fn text(&self) -> &'a [u8]
        ensures { result.now ≡ content_text self.now }
    {
        self.text
    }

    #[inline(always)]
    pub fn enc(&self) -> &'a [u8]
        ensures { result.now ≡ self.now.enc }
    {
        &self.text[..usize::from(self.enc_len)]
    }

    #[inline(always)]
    pub fn value(&self) -> &'a [u8]
        ensures { result.now ≡ self.now.value }
    {
        &self.text[usize::from(self.enc_len) + 1..]
    }

    /// Whether the attribute is nonpersistent.
    #[inline(always)]
    pub fn n(&self) -> bool
        ensures { result ≡ self.now.n }
    {
        self.n
    }

    /// A copy of its own, which takes no memory, since its text is short.
    #[inline(always)]
    pub fn short_copy(&self) -> AttributeContent
        requires { is_short (content_text self.now) ≡ true }
        ensures { result ≡ self.now }
    {
        AttributeContent {
            text: Bytes::short(self.text),
            enc_len: self.enc_len,
            n: self.n,
        }
    }

    /// A copy of its own.
    pub fn copy(&self, alloc: Global) -> Result<AttributeContent, AllocError>
        ensures { IfOk result (λ copy. copy ≡ self.now) }
    {
        let text = Bytes::from_slice(alloc, self.text)?;
        Ok(AttributeContent {
            text,
            enc_len: self.enc_len,
            n: self.n,
        })
    }
}

/// The encoding and the value of an attribute, in one text. Where `n` is true it is nonpersistent.
#[derive(Debug, Drop)]
pub struct AttributeContent {
    text: Bytes,
    enc_len: u8,
    n: bool,
}

impl Model for AttributeContent {
    ghost use Rattle.pps_types.specs.AttributeContent.{Content, content_in, IsContentText};

    ghost Value = { Content };

    ghost view = { λ a. content_in a.enc_len a.n a.text };

    ghost invariant = { λ a. IsContentText a.enc_len a.n a.text };
}

impl AttributeContent {
    /// It, lent.
    #[inline(always)]
    pub fn lend(&self) -> AttributeContentRef<'_>
        ensures { result ≡ self.now }
    {
        AttributeContentRef {
            text: self.text.as_slice(),
            enc_len: self.enc_len,
            n: self.n,
        }
    }

    /// How long both are in one text, with the colon between them.
    #[inline(always)]
    pub fn text_len(&self) -> usize
        ensures { result ≡ length (content_text self.now) }
    {
        self.text.len()
    }

    /// Whether the attribute is nonpersistent.
    #[inline(always)]
    pub fn n(&self) -> bool
        ensures { result ≡ self.now.n }
    {
        self.n
    }
}

impl Clone for AttributeContent {
    ghost is_clone = { λ a b. b ≡ a };

    fn clone(&self) -> Result<AttributeContent, AllocError> {
        let text = self.text.copy()?;
        Ok(AttributeContent {
            text,
            enc_len: self.enc_len,
            n: self.n,
        })
    }
}

impl PartialEq for AttributeContent {
    ghost use Rattle.pps_types.specs.AttributeContent.{same_content};

    ghost eq = { same_content };

    ghost laws = { Prim.search (comparing, rules) };

    fn eq(&self, other: &AttributeContent) -> bool {
        let one = self.lend();
        let another = other.lend();
        one.enc() == another.enc() && one.value() == another.value() && one.n() == another.n()
    }
}

impl Eq for AttributeContent {
    ghost laws = { Prim.search (comparing, rules) };
}
