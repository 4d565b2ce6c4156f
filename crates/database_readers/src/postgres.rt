//! How PostgreSQL reads a text.
ghost use Rattle.std.specs.Prelude.{◌≡◌, ◌<◌, ◌||◌, ◌==◌, ◌^◌};
ghost use Rattle.sql_parts.specs.Tokens.{is_word_byte};
ghost use Rattle.database_readers.specs.PostgresReader.{begun, behind_string, ends_line, in_comment, in_nested, in_string, in_tag, in_tagged, in_token, in_word, is_blank, most, nested, postgres, string};

const OUTSIDE: u64 = 0;

const WORD: u64 = 1;

const NUMBER: u64 = 2;

const MINUS: u64 = 3;

const SLASH: u64 = 4;

const LINE_COMMENT: u64 = 5;

const NAME: u64 = 6;

const NAME_QUOTE: u64 = 7;

const DOLLAR: u64 = 8;

const LETTER_E: u64 = 9;

const LETTER_U: u64 = 10;

const U_AND: u64 = 11;

const LETTER_OF_BITS: u64 = 12;

const LOST: u64 = 15;
// The first of the states in a string, and of those in what nests or has a tag.
const STRINGS: u64 = 16;

const NESTED: u64 = 48;

const PLAIN: u64 = 0;

const ESCAPES: u64 = 1;

const UNICODE: u64 = 2;

const BITS: u64 = 3;

const INSIDE: u64 = 0;

const BACKSLASH: u64 = 1;

const QUOTE: u64 = 2;

const BLANKS: u64 = 3;

const LINES: u64 = 4;

const MINUS_BEHIND: u64 = 5;

const COMMENT_BEHIND: u64 = 6;

const COMMENT: u64 = 0;

const COMMENT_SLASH: u64 = 1;

const COMMENT_STAR: u64 = 2;

const TAG: u64 = 3;

const TAGGED: u64 = 4;

const TAGGED_DOLLAR: u64 = 5;

const MOST: u64 = 16777216;

const LIMIT: u64 = 2251799813685296;

fn string(kind: u64, place: u64) -> u64
    requires kind { kind < 8 }
    requires place { place < 8 }
    ensures { result ≡ string kind place }
{
    STRINGS + 8 * kind + place
}

fn nested(place: u64, more: u64) -> u64
    requires place { place < 8 }
    requires more { more < 2 ^ 48 }
    ensures { result ≡ nested place more }
{
    NESTED + 8 * more + place
}

pub(crate) fn is_word_byte(byte: u8) -> bool
    ensures { result ≡ is_word_byte byte }
{
    byte.is_ascii_alphanumeric() || byte == b'_' || byte >= 128
}

fn ends_line(byte: u8) -> bool
    ensures { result ≡ ends_line byte }
{
    byte == 10 || byte == 13
}

fn is_blank(byte: u8) -> bool
    ensures { result ≡ is_blank byte }
{
    byte == b' ' || byte == 9 || byte == 12
}

fn begun(byte: u8) -> u64
    ensures { result ≡ begun byte }
{
    match byte {
        b'\'' => string(PLAIN, INSIDE),
        b'"' => NAME,
        b'-' => MINUS,
        b'/' => SLASH,
        b'$' => DOLLAR,
        b'e' | b'E' => LETTER_E,
        b'u' | b'U' => LETTER_U,
        b'x' | b'X' | b'b' | b'B' => LETTER_OF_BITS,
        b'0'..=b'9' => NUMBER,
        _ if is_word_byte(byte) => WORD,
        _ => OUTSIDE,
    }
}

fn in_word(byte: u8) -> u64
    ensures { result ≡ in_word byte }
{
    if is_word_byte(byte) || byte == b'$' {
        WORD
    } else {
        begun(byte)
    }
}

fn behind_dollar(byte: u8) -> u64
    ensures { result ≡ in_token 8 byte }
{
    if byte == b'$' {
        nested(TAGGED, 0)
    } else if byte.is_ascii_digit() {
        NUMBER
    } else if is_word_byte(byte) {
        nested(TAG, byte as u64)
    } else {
        begun(byte)
    }
}

fn in_token(state: u64, byte: u8) -> u64
    ensures { result ≡ in_token state byte }
{
    match state {
        OUTSIDE => begun(byte),
        WORD => in_word(byte),
        NUMBER => if is_word_byte(byte) {
            NUMBER
        } else {
            begun(byte)
        },
        MINUS => if byte == b'-' {
            LINE_COMMENT
        } else {
            begun(byte)
        },
        SLASH => if byte == b'*' {
            nested(COMMENT, 0)
        } else {
            begun(byte)
        },
        LINE_COMMENT => if ends_line(byte) {
            OUTSIDE
        } else {
            LINE_COMMENT
        },
        NAME => if byte == b'"' { NAME_QUOTE } else { NAME },
        NAME_QUOTE => if byte == b'"' { NAME } else { begun(byte) },
        DOLLAR => behind_dollar(byte),
        LETTER_E => if byte == b'\'' {
            string(ESCAPES, INSIDE)
        } else {
            in_word(byte)
        },
        LETTER_U => if byte == b'&' { U_AND } else { in_word(byte) },
        U_AND => match byte {
            b'\'' => string(UNICODE, INSIDE),
            b'"' => NAME,
            _ => begun(byte),
        },
        LETTER_OF_BITS => if byte == b'\'' {
            string(BITS, INSIDE)
        } else {
            in_word(byte)
        },
        _ => LOST,
    }
}

fn behind_string(kind: u64, place: u64, byte: u8) -> u64
    requires kind { kind < 8 }
    requires place { place < 8 }
    ensures { result ≡ behind_string kind place byte }
{
    if ends_line(byte) {
        string(kind, LINES)
    } else if is_blank(byte) {
        string(kind, place)
    } else if byte == b'-' {
        string(kind, MINUS_BEHIND)
    } else {
        begun(byte)
    }
}

fn inside(kind: u64, byte: u8) -> u64
    requires kind { kind < 8 }
    ensures { result ≡ in_string kind 0 byte }
{
    if byte == b'\'' {
        string(kind, QUOTE)
    } else if (kind == ESCAPES || kind == UNICODE) && byte == b'\\' {
        string(kind, BACKSLASH)
    } else {
        string(kind, INSIDE)
    }
}

fn in_string(kind: u64, place: u64, byte: u8) -> u64
    requires kind { kind < 8 }
    ensures { result ≡ in_string kind place byte }
{
    let is_quote = byte == b'\'';
    match place {
        INSIDE => inside(kind, byte),
        BACKSLASH => string(
            kind,
            if kind == UNICODE && is_quote {
                QUOTE
            } else {
                INSIDE
            },
        ),
        QUOTE if kind != BITS && is_quote => string(kind, INSIDE),
        QUOTE | BLANKS => behind_string(kind, BLANKS, byte),
        LINES if is_quote => string(kind, INSIDE),
        LINES => behind_string(kind, LINES, byte),
        MINUS_BEHIND if byte == b'-' => string(kind, COMMENT_BEHIND),
        MINUS_BEHIND => begun(byte),
        COMMENT_BEHIND => string(
            kind,
            if ends_line(byte) {
                LINES
            } else {
                COMMENT_BEHIND
            },
        ),
        _ => LOST,
    }
}

fn in_comment(place: u64, depth: u64, byte: u8) -> u64
    requires depth { depth < 2 ^ 48 }
    ensures { result ≡ in_comment place depth byte }
{
    match byte {
        b'*' if place == COMMENT_SLASH => {
            if depth < MOST {
                nested(COMMENT, depth + 1)
            } else {
                LOST
            }
        }
        b'*' => nested(COMMENT_STAR, depth),
        b'/' if place == COMMENT_STAR => {
            if depth == 0 {
                OUTSIDE
            } else {
                nested(COMMENT, depth - 1)
            }
        }
        b'/' => nested(COMMENT_SLASH, depth),
        _ => nested(COMMENT, depth),
    }
}

fn in_tag(found: u64, byte: u8) -> u64
    requires found { found < 2 ^ 48 }
    ensures { result ≡ in_tag found byte }
{
    if byte == b'$' {
        nested(TAGGED, found)
    } else if is_word_byte(byte) {
        if found < 65536 {
            nested(TAG, 256 * found + byte as u64)
        } else {
            LOST
        }
    } else if found < 256 {
        in_token(begun(found as u8), byte)
    } else {
        begun(byte)
    }
}

fn in_tagged(ends: u64, found: u64, byte: u8) -> u64
    requires ends { ends < most }
    ensures { result ≡ in_tagged ends found byte }
{
    if byte == b'$' {
        if found == ends {
            OUTSIDE
        } else {
            nested(TAGGED_DOLLAR, ends)
        }
    } else if is_word_byte(byte) && found < 65536 {
        nested(TAGGED_DOLLAR, ends + MOST * (256 * found + byte as u64))
    } else {
        nested(TAGGED, ends)
    }
}

fn in_nested(place: u64, more: u64, byte: u8) -> u64
    requires more { more < 2 ^ 48 }
    ensures { result ≡ in_nested place more byte }
{
    match place {
        COMMENT | COMMENT_SLASH | COMMENT_STAR => in_comment(place, more, byte),
        TAG => in_tag(more, byte),
        TAGGED => nested(if byte == b'$' { TAGGED_DOLLAR } else { TAGGED }, more),
        TAGGED_DOLLAR => in_tagged(more % MOST, more / MOST, byte),
        _ => LOST,
    }
}

pub(crate) fn next(state: u64, byte: u8) -> u64
    ensures { result ≡ postgres state byte }
{
    if state < STRINGS {
        in_token(state, byte)
    } else if state < NESTED {
        in_string((state - STRINGS) / 8, (state - STRINGS) % 8, byte)
    } else if state < LIMIT {
        in_nested((state - NESTED) % 8, (state - NESTED) / 8, byte)
    } else {
        LOST
    }
}
