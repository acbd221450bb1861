//! What a name can stand for.

/// What a name stands for, or is to stand for.
#[derive(Clone, Copy, Debug, PartialEq, Eq)]
pub enum NodeKind {
    Object,
    Directory,
}
