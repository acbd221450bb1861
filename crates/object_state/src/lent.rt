//! Attributes as they are lent.

/// An attribute, as its object lends it. Where `n` is true it is nonpersistent.
#[derive(Clone, Copy, Debug, PartialEq, Eq)]
pub struct AttributeRef<'a> {
    pub name: &'a [u8],
    pub enc: &'a [u8],
    pub value: &'a [u8],
    pub n: bool,
}
