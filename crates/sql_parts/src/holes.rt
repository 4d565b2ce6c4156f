//! Templates with holes, and how an operand is written in one.
ghost use Rattle.std.specs.Prelude.{◌≡◌};
ghost use Rattle.sql_parts.specs.{hole_count, holes_apart, is_bracketed, is_dotted, is_unit, unsigned, tokens};

use crate::lex::{is_balanced, segment_apart};
use crate::tokenizer::{Token, first_token};

/// Returns how many `?` a template has. Never fails.
/// `hole_count("price * ? > ?")` gives `2`
pub fn hole_count(template: &str) -> usize
    ensures { result ≡ hole_count template.now }
{
    template.bytes().filter(|byte| *byte == b'?').count()
}

/// Returns whether the holes of a template stand apart. Beside a `?` is then only a separator or an
/// end of the text, and no quote or comment is open there. The separators are a blank, `(`, `)`,
/// `,`, `;`, `=`, `<` and `>`. Never fails. Takes no memory.
/// `holes_apart("price * ? > ?")` gives `true`
/// `holes_apart("title = '?'")` gives `false`
pub fn holes_apart(template: &str) -> bool
    ensures { result ≡ holes_apart template.now }
{
    let mut first = true;
    let mut rest = template;
    while let Some((segment, behind)) = rest.split_once('?') {
        if !segment_apart(first, false, segment) {
            return false;
        }
        first = false;
        rest = behind;
    }
    segment_apart(first, true, rest)
}

// Whether the text is one token, or parts with a dot between each and the next.
fn is_dotted(text: &str) -> bool
    ensures { result ≡ is_dotted (tokens text.now) }
{
    let mut rest = text;
    while let Some((token, behind)) = first_token(rest) {
        match first_token(behind) {
            None => return true,
            Some((Token::Symbol(b'.'), further)) if !matches!(token, Token::Symbol(_)) => {
                rest = further;
            }
            Some(_) => return false,
        }
    }
    false
}

// The text without the sign of a placeholder at its front.
fn unsigned(text: &str) -> &str
    ensures { result.now ≡ unsigned text.now }
{
    match text.strip_prefix('?') {
        Some(behind) => behind,
        None => match text.strip_prefix('$') {
            Some(behind) => behind,
            None => text,
        },
    }
}

// Whether the text is in brackets, and balanced between them.
fn is_bracketed(text: &str) -> bool
    ensures { result ≡ is_bracketed text.now }
{
    let Some(behind) = text.strip_prefix('(') else {
        return false;
    };
    match behind.strip_suffix(')') {
        Some(inner) => is_balanced(inner),
        None => false,
    }
}

/// Returns whether the text is a literal that isn't negative, a placeholder, a name, one sign such
/// as `*`, or a text in brackets. An operator beside such a text can't take it apart. Never fails.
/// `is_unit("\"books\".price")` gives `true`
/// `is_unit("a + b")` gives `false`
pub fn is_unit(text: &str) -> bool
    ensures { result ≡ is_unit text.now }
{
    is_dotted(unsigned(text)) || is_bracketed(text)
}
