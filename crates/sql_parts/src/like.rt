//! Masks of LIKE.
ghost use Rattle.std.specs.Prelude.{◌≡◌, ◌<◌, ◌++◌, string_bytes, OnOk};
ghost use Rattle.sql_parts.specs.Like.{escape_character, is_special, like_escaped};

use std::alloc::AllocError;

/// The character that a mask of LIKE escapes with, which ESCAPE names behind the mask. No quote, no
/// wildcard and no backslash is among them: a backslash in a literal means something else in each
/// database.
#[derive(Clone, Copy)]
pub enum LikeEscape {
    /// `!`
    Exclamation,
    /// `#`
    Hash,
    /// `/`
    Slash,
    /// `^`
    Caret,
    /// `|`
    Bar,
    /// `~`
    Tilde,
}

impl LikeEscape {
    /// Returns the character, for the ESCAPE behind the mask. Never fails.
    /// `LikeEscape::Exclamation.character()` gives `!`
    pub fn character(self) -> char
        ensures character { result ≡ escape_character self }
        ensures one_byte { result < 128 }
    {
        match self {
            LikeEscape::Exclamation => '!',
            LikeEscape::Hash => '#',
            LikeEscape::Slash => '/',
            LikeEscape::Caret => '^',
            LikeEscape::Bar => '|',
            LikeEscape::Tilde => '~',
        }
    }
}

// Whether the byte is a wildcard or the escape character.
fn is_special(byte: u8, escape: char) -> bool
    requires one_byte { escape < 128 }
    ensures { result ≡ is_special escape byte }
{
    byte == b'%' || byte == b'_' || char::from(byte) == escape
}

/// Appends the text with the escape character before each wildcard and each escape character in it.
pub(crate) fn push_like_escaped(
    out: &mut String,
    text: &str,
    escape: LikeEscape,
) -> Result<(), AllocError>
    ensures { OnOk result (string_bytes out.new
        ≡ string_bytes out.old ++ like_escaped (escape_character escape) text.now) }
{
    let escape = escape.character();
    let bytes = text.as_bytes();
    let mut start = 0;
    for at in 0..bytes.len() {
        if is_special(bytes[at], escape) {
            out.push_str(&text[start..at])?;
            out.push(escape)?;
            start = at;
        }
    }
    out.push_str(&text[start..])
}
