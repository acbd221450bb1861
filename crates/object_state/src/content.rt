//! What an attribute has besides its name.
ghost use Rattle.std.specs.Prelude.{◌≡◌, ◌<◌, ◌^◌};
ghost use Rattle.object_state.specs.Entries.{line_length};

use pps_types::AttributeContent;

/// How long the printed line of an attribute is, under a name of that length.
#[inline(always)]
pub(crate) fn line_len(content: &AttributeContent, name_len: usize) -> usize
    requires { line_length name_len content.now < 2 ^ 64 }
    ensures { result ≡ line_length name_len content.now }
{
    let marks: usize = if content.n() { 5 } else { 2 };
    marks + name_len + content.text_len()
}
