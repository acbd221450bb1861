//! Lines as they are held, each in one text, and as they are lent.
ghost use Rattle.std.specs.Prelude.{◌≡◌, Some, IfOk};
ghost use Rattle.pps_types.specs.declared.line.Line.TheVariants.{Del};
ghost use Rattle.pps_types.specs.HeldLine.{start_of, text_of, line_in, with_mark, joined, held_from, IsSetText};
ghost use Rattle.pps_types.specs.History.{marked_by, message_line};
ghost use Rattle.pps_types.specs.LentLine.{lent_line};

use crate::attribute_content::AttributeContentRef;
use crate::bytes::Bytes;
use crate::line::{Line, Mark};
use std::alloc::{AllocError, Global};
use std::marker::Model;

/// A line, in the parts that its owner lends.
#[derive(Debug, Drop)]
pub enum LineRef<'a> {
    Set {
        name: &'a [u8],
        content: AttributeContentRef<'a>,
    },
    Del {
        name: &'a [u8],
    },
}

/// How long a name and an encoding may be, so that their lengths are held in a byte.
const PART_MAX: usize = 255;

// A name, an encoding and a value in one text, with colons between them.
fn set_text(alloc: Global, name: &[u8], enc: &[u8], value: &[u8]) -> Result<Vec<u8>, AllocError>
    ensures { IfOk result (λ text. text.items ≡ joined name.now enc.now value.now) }
{
    let mut text = Vec::new(alloc);
    text.extend_from_slice(name)?;
    text.push(b':')?;
    text.extend_from_slice(enc)?;
    text.push(b':')?;
    text.extend_from_slice(value)?;
    Ok(text)
}

/// A line as records hold it: its text once, without what comes before its name and without the line feed. Contracts see
/// it as a [`Line`](crate::Line).
#[derive(Debug, Drop)]
pub struct HeldLine {
    text: Bytes,
    // How long the name is, if the line sets an attribute.
    name_len: u8,
    // How long its encoding is then.
    enc_len: u8,
    // Whether its attribute is nonpersistent. None says that the line deletes one.
    n: Option<bool>,
}

impl Model for HeldLine {
    ghost use Rattle.std.specs.Prelude.{◌≡◌};
    ghost use Rattle.pps_types.specs.declared.line.Line.{Line};
    ghost use Rattle.pps_types.specs.HeldLine.{line_in, text_of};

    ghost Value = { Line };

    ghost view = { λ a. line_in a.n a.name_len a.enc_len a.text };

    ghost invariant = { λ a. text_of (line_in a.n a.name_len a.enc_len a.text) ≡ a.text };
}

impl HeldLine {
    /// The line that sets the attribute of this text, `name:encoding:value`, whose name and encoding are that long.
    #[inline(always)]
    pub fn set(
        alloc: Global,
        text: &[u8],
        name_len: u8,
        enc_len: u8,
        n: bool,
    ) -> Result<HeldLine, AllocError>
        requires { IsSetText name_len enc_len text.now }
        ensures { IfOk result (λ line. line ≡ line_in (Some n) name_len enc_len text.now) }
    {
        let text = Bytes::from_slice(alloc, text)?;
        Ok(HeldLine {
            text,
            name_len,
            enc_len,
            n: Some(n),
        })
    }

    /// The line that deletes the attribute of that name.
    pub fn deletion(alloc: Global, name: &[u8]) -> Result<HeldLine, AllocError>
        ensures { IfOk result (λ line. line ≡ Del name.now) }
    {
        let text = Bytes::from_slice(alloc, name)?;
        Ok(HeldLine {
            text,
            name_len: 0,
            enc_len: 0,
            n: None,
        })
    }

    /// A line, held. None says that its name or its encoding has more than 255 bytes, which no name and no encoding of a text
    /// has.
    pub fn from_line(alloc: Global, line: &Line) -> Result<Option<HeldLine>, AllocError>
        ensures { IfOk result (λ held. held ≡ held_from line.now) }
    {
        let (name, enc, value, n) = match line {
            Line::Set {
                name,
                enc,
                value,
                n,
            } => (name.as_slice(), enc.as_slice(), value.as_slice(), *n),
            Line::Del { name } => {
                let deletion = HeldLine::deletion(alloc, name.as_slice())?;
                return Ok(Some(deletion));
            }
        };
        if name.len() > PART_MAX || enc.len() > PART_MAX {
            return Ok(None);
        }
        let text = set_text(alloc, name, enc, value)?;
        let (name_len, enc_len) = (name.len() as u8, enc.len() as u8);
        let set = HeldLine::set(alloc, text.as_slice(), name_len, enc_len, n)?;
        Ok(Some(set))
    }

    /// What its printing begins with: `[n]` if its attribute is nonpersistent, `-` if it deletes one.
    #[inline(always)]
    pub fn start(&self) -> &[u8]
        ensures { result.now ≡ start_of self.now }
    {
        match self.n {
            None => b"-",
            Some(true) => b"[n]",
            Some(false) => &[],
        }
    }

    /// What its printing has between that and the line feed: `name:encoding:value`, or the name that it deletes.
    #[inline(always)]
    pub fn text(&self) -> &[u8]
        ensures { result.now ≡ text_of self.now }
    {
        self.text.as_slice()
    }

    /// Its parts.
    #[inline(always)]
    pub fn parts(&self) -> LineRef<'_>
        ensures { lent_line result ≡ self.now }
    {
        let text = self.text.as_slice();
        let Some(n) = self.n else {
            return LineRef::Del { name: text };
        };
        let name_end = usize::from(self.name_len);
        LineRef::Set {
            name: &text[..name_end],
            content: AttributeContentRef {
                text: &text[name_end + 1..],
                enc_len: self.enc_len,
                n,
            },
        }
    }

    /// The same line with that mark, if it sets an attribute. It takes no memory.
    #[inline(always)]
    pub fn with_mark(self, n: bool) -> HeldLine
        ensures { result ≡ with_mark n self }
    {
        let HeldLine {
            text,
            name_len,
            enc_len,
            n: before,
        } = self;
        HeldLine {
            text,
            name_len,
            enc_len,
            n: before.map(|_| n),
        }
    }
}

impl PartialEq for HeldLine {
    ghost use Rattle.pps_types.specs.contracts.line.LinePartialEq.TheImpl.Laws.{laws-law};

    ghost eq = { ⟦<Line as PartialEq>⟧.eq };

    ghost laws = { laws-law };

    fn eq(&self, other: &HeldLine) -> bool {
        match (self.parts(), other.parts()) {
            (
                LineRef::Set { name, content },
                LineRef::Set {
                    name: other_name,
                    content: other_content,
                },
            ) => {
                name == other_name
                    && content.enc() == other_content.enc()
                    && content.value() == other_content.value()
                    && content.n() == other_content.n()
            }
            (LineRef::Del { name }, LineRef::Del { name: other_name }) => name == other_name,
            _ => false,
        }
    }
}

impl Eq for HeldLine {
    ghost use Rattle.pps_types.specs.contracts.line.LineEq.TheImpl.Laws.{laws-law};

    ghost laws = { laws-law };
}

/// A line of a write, as it is read. Contracts see it as a [`WriteLine`](crate::WriteLine).
#[derive(Debug, Drop)]
pub struct WrittenLine {
    // What it comes to if its attribute was persistent.
    line: HeldLine,
    has_bracket: bool,
}

impl Model for WrittenLine {
    ghost use Rattle.pps_types.specs.declared.line.WriteLine.{WriteLine};
    ghost use Rattle.pps_types.specs.HeldLine.{written_as};

    ghost Value = { WriteLine };

    ghost view = { λ a. written_as a.line a.has_bracket };
}

impl WrittenLine {
    ghost use Rattle.pps_types.specs.HeldLine.{written_in, mark_of};
    ghost use Rattle.pps_types.specs.History.{resolved_by};
    ghost use Rattle.pps_types.specs.declared.line.WriteLine.TheVariants.{Del as WriteDel};

    /// The line that sets the attribute of this text, `name:encoding:value`, whose name and encoding are that long, and
    /// whose bracket is that.
    #[inline(always)]
    pub fn set(
        alloc: Global,
        text: &[u8],
        name_len: u8,
        enc_len: u8,
        mark: Mark,
    ) -> Result<WrittenLine, AllocError>
        requires { IsSetText name_len enc_len text.now }
        ensures { IfOk result (λ line. line ≡ written_in mark name_len enc_len text.now) }
    {
        let line = HeldLine::set(alloc, text, name_len, enc_len, mark.applied_to(false))?;
        let has_bracket = match mark {
            Mark::Keep => false,
            Mark::On => true,
            Mark::Off => true,
        };
        Ok(WrittenLine { line, has_bracket })
    }

    /// The line that deletes the attribute of that name.
    pub fn deletion(alloc: Global, name: &[u8]) -> Result<WrittenLine, AllocError>
        ensures { IfOk result (λ line. line ≡ WriteDel name.now) }
    {
        let line = HeldLine::deletion(alloc, name)?;
        Ok(WrittenLine {
            line,
            has_bracket: false,
        })
    }

    /// Its parts; of one that sets an attribute, `n` says whether it has the bracket `[n]`.
    #[inline(always)]
    pub fn parts(&self) -> LineRef<'_>
        ensures { lent_line result ≡ message_line self.now }
    {
        self.line.parts()
    }

    /// Its bracket or that it has none, if it sets an attribute.
    pub fn mark(&self) -> Option<Mark>
        ensures { result ≡ mark_of self.now }
    {
        match self.line.n {
            None => None,
            Some(true) => Some(Mark::On),
            Some(false) if self.has_bracket => Some(Mark::Off),
            Some(false) => Some(Mark::Keep),
        }
    }

    /// The line that it comes to if no attribute of its name was nonpersistent before it, as in a message, whose lines are
    /// no attributes. It takes no memory.
    #[inline(always)]
    pub fn into_line(self) -> HeldLine
        ensures { result ≡ message_line self }
    {
        let WrittenLine { line, .. } = self;
        line
    }

    /// The line that it comes to if its attribute was nonpersistent before it, or was not. It takes no memory.
    #[inline(always)]
    pub fn resolved_by(self, before: bool) -> HeldLine
        ensures { result ≡ resolved_by before self }
    {
        let WrittenLine { line, has_bracket } = self;
        if before && !has_bracket {
            return line.with_mark(true);
        }
        line
    }
}
