//! The tokens of a text, read from its front.
ghost use Rattle.std.specs.Prelude.{◌≡◌, ◌<◌, ℕ, List, [], ◌∷◌, IfSome, MatchOption, None, Some, drop, length, option_map, take};
ghost use Rattle.std.specs.List.{prefix_len};
ghost use Rattle.sql_parts.specs.{IsRead, Represents, behind_bytes, optional_bytes, closed, is_word_byte, reach, unquoted};
ghost use Rattle.sql_parts.specs.Tokens as tokens;
ghost use Rattle.sql_parts.specs.Tokens.{inside};
ghost use Rattle.sql_parts.specs.declared.tokenizer.Token.TheVariants as seen;

/// A token of a text. What is between quotes isn't stored.
#[derive(Clone, Copy)]
pub(crate) enum Token<'t> {
    /// A word, a keyword or a number.
    Word(&'t str),
    /// A text or a name between quotes.
    Quoted,
    /// Any other character.
    Symbol(u8),
    /// A quote or a comment that has no end.
    Open,
}

// 1 for each byte that a word has, and 0 for each other.
const WORD_BYTES: [u8; 256] = [
    0, 0, 0, 0, 0, 0, 0, 0, 0, 0, 0, 0, 0, 0, 0, 0, 0, 0, 0, 0, 0, 0, 0, 0, 0, 0, 0, 0, 0, 0, 0, 0,
    0, 0, 0, 0, 0, 0, 0, 0, 0, 0, 0, 0, 0, 0, 0, 0, 1, 1, 1, 1, 1, 1, 1, 1, 1, 1, 0, 0, 0, 0, 0, 0,
    0, 1, 1, 1, 1, 1, 1, 1, 1, 1, 1, 1, 1, 1, 1, 1, 1, 1, 1, 1, 1, 1, 1, 1, 1, 1, 1, 0, 0, 0, 0, 1,
    0, 1, 1, 1, 1, 1, 1, 1, 1, 1, 1, 1, 1, 1, 1, 1, 1, 1, 1, 1, 1, 1, 1, 1, 1, 1, 1, 0, 0, 0, 0, 0,
    1, 1, 1, 1, 1, 1, 1, 1, 1, 1, 1, 1, 1, 1, 1, 1, 1, 1, 1, 1, 1, 1, 1, 1, 1, 1, 1, 1, 1, 1, 1, 1,
    1, 1, 1, 1, 1, 1, 1, 1, 1, 1, 1, 1, 1, 1, 1, 1, 1, 1, 1, 1, 1, 1, 1, 1, 1, 1, 1, 1, 1, 1, 1, 1,
    1, 1, 1, 1, 1, 1, 1, 1, 1, 1, 1, 1, 1, 1, 1, 1, 1, 1, 1, 1, 1, 1, 1, 1, 1, 1, 1, 1, 1, 1, 1, 1,
    1, 1, 1, 1, 1, 1, 1, 1, 1, 1, 1, 1, 1, 1, 1, 1, 1, 1, 1, 1, 1, 1, 1, 1, 1, 1, 1, 1, 1, 1, 1, 1,
];

#[inline(always)]
pub(crate) fn is_word_byte(byte: u8) -> bool
    ensures { result ≡ is_word_byte byte }
{
    WORD_BYTES[usize::from(byte)] == 1
}

// The text behind the first such ending, where there is one.
fn behind_ending<'t>(ending: &str, text: &'t str) -> Option<&'t str>
    requires some { 0 < length ending.now }
    ensures { optional_bytes result ≡ behind_bytes text.now (reach ending.now text.now) }
{
    match text.split_once(ending) {
        Some((_, behind)) => Some(behind),
        None => None,
    }
}

// The text behind the delimiter that closes a quote, where one does.
fn behind_quote(delimiter: char, quoted: &str) -> Option<&str>
    requires one_byte { delimiter < 128 }
    ensures { optional_bytes result ≡ behind_bytes quoted.now (option_map (λ found. found.1) (inside delimiter quoted.now)) }
{
    let mut rest = quoted;
    while let Some((_, behind)) = rest.split_once(delimiter) {
        match behind.strip_prefix(delimiter) {
            Some(more) => rest = more,
            None => return Some(behind),
        }
    }
    None
}

// A comment or a quote: this token, and the text behind its end. Without an end it is open, up to
// the end of the text.
#[inline(always)]
fn ended<'t>(token: Option<Token<'t>>, behind: Option<&'t str>) -> (Option<Token<'t>>, &'t str)
    ensures { MatchOption behind.entry ((result.0 ≡ Some seen.Open) × (result.1.now ≡ [])) (λ rest. result ≡ (token.entry, rest)) }
{
    match behind {
        Some(rest) => (token, rest),
        None => (Some(Token::Open), ""),
    }
}

// What is behind the opening of a comment that ends so, up to that end.
// It is no part of `read`, which would clear room for the result at each word.
#[inline(always)]
fn read_comment<'t>(ending: &str, comment: &'t str) -> (Option<Token<'t>>, &'t str)
    requires some { 0 < length ending.now }
    ensures { MatchOption (behind_bytes comment.now (reach ending.now comment.now)) ((result.0 ≡ Some seen.Open) × (result.1.now ≡ []))
        (λ behind. (result.0 ≡ None) × (result.1.now ≡ behind)) }
{
    ended(None, behind_ending(ending, comment))
}

// What is behind the opening delimiter of a quote, up to the one that closes it.
#[inline(always)]
fn read_quoted(delimiter: char, quoted: &str) -> (Option<Token<'_>>, &str)
    requires one_byte { delimiter < 128 }
    ensures { (token : List ℕ → tokens.Token) → ((text : List ℕ) → Represents seen.Quoted (token text))
        → IsRead quoted.now result (unquoted token quoted.now (inside delimiter quoted.now)) }
{
    ended(Some(Token::Quoted), behind_quote(delimiter, quoted))
}

// The run of word characters at the front of a text, and the text behind it.
#[inline(always)]
fn split_word(text: &str) -> (&str, &str)
    ensures word { result.0.now ≡ take (prefix_len is_word_byte text.now) text.now }
    ensures rest { result.1.now ≡ drop (prefix_len is_word_byte text.now) text.now }
{
    let bytes = text.as_bytes();
    let mut end = 0;
    while end < bytes.len() && is_word_byte(bytes[end]) {
        end += 1;
    }
    text.split_at(end)
}

// What the first rule that fits reads at the front of a text, and the text behind it.
#[inline(always)]
pub(crate) fn read(first: u8, text: &str) -> (Option<Token<'_>>, &str)
    requires first { text.now ≡ first ∷ drop 1 text.now }
    ensures { IsRead (drop 1 text.now) result (tokens.first first (drop 1 text.now)) }
{
    if is_word_byte(first) {
        let (word, rest) = split_word(text);
        return (Some(Token::Word(word)), rest);
    }
    let behind = &text[1..];
    let symbol = (Some(Token::Symbol(first)), behind);
    match first {
        b' ' | b'\t' | b'\n' | b'\r' => (None, behind),
        b'-' => match text.strip_prefix("--") {
            Some(comment) => read_comment("\n", comment),
            None => symbol,
        },
        b'/' => match text.strip_prefix("/*") {
            Some(comment) => read_comment("*/", comment),
            None => symbol,
        },
        b'\'' => read_quoted('\'', behind),
        b'"' => read_quoted('"', behind),
        b'`' => read_quoted('`', behind),
        b'[' => read_quoted(']', behind),
        _ => symbol,
    }
}

// The first token of a text, and the text behind it.
#[inline(always)]
pub(crate) fn first_token(text: &str) -> Option<(Token<'_>, &str)>
    ensures token { MatchOption result (tokens.tokens text.now ≡ [])
        (λ found. (token : tokens.Token) × Represents found.0 token
        × (tokens.tokens text.now ≡ token ∷ tokens.tokens found.1.now)) }
    ensures shorter { IfSome result (λ found. length found.1.now < length text.now) }
{
    let mut rest = text;
    while let Some(first) = rest.as_bytes().first() {
        let (token, behind) = read(*first, rest);
        if let Some(token) = token {
            return Some((token, behind));
        }
        rest = behind;
    }
    None
}

/// Returns whether each quote and each comment of the text has its end. Never fails.
/// `is_closed("a -- b")` gives `false`
pub fn is_closed(text: &str) -> bool
    ensures { result ≡ closed text.now }
{
    let mut rest = text;
    while let Some((token, behind)) = first_token(rest) {
        if matches!(token, Token::Open) {
            return false;
        }
        rest = behind;
    }
    true
}
