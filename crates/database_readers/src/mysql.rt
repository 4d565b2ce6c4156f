//! How MySQL and MariaDB read a text.
ghost use Rattle.std.specs.Prelude.{◌≡◌};
ghost use Rattle.database_readers.specs.MysqlReader.{begun, in_comment, in_line, in_literal, in_word, mysql};

use crate::postgres::is_word_byte;

const OUTSIDE: u64 = 0;

const WORD: u64 = 119;

const LETTER: u64 = 120;

const BITS: u64 = 98;

const DASH: u64 = 45;

const DASHES: u64 = 301;

const LINE: u64 = 10;

const SLASH: u64 = 47;

const SLASH_STAR: u64 = 303;

const LETTER_M: u64 = 77;

const BLOCK: u64 = 1;

const STAR: u64 = 42;

const LOST: u64 = 33;

const BEHIND_DELIMITER: u64 = 256;

const BEHIND_BACKSLASH: u64 = 512;

fn begun(byte: u8) -> u64
    ensures { result ≡ begun byte }
{
    match byte {
        b'\'' | b'"' | b'`' => byte as u64,
        b'-' => DASH,
        b'/' => SLASH,
        b'#' => LINE,
        b'$' => LOST,
        b'x' | b'X' | b'b' | b'B' => LETTER,
        b'.' | b'@' => WORD,
        _ if is_word_byte(byte) => WORD,
        _ => OUTSIDE,
    }
}

fn in_word(state: u64, byte: u8) -> u64
    ensures { result ≡ in_word state byte }
{
    match state {
        BITS => if byte == b'\'' { OUTSIDE } else { BITS },
        LETTER if byte == b'\'' => BITS,
        _ if is_word_byte(byte) || byte == b'$' => WORD,
        _ => begun(byte),
    }
}

fn in_literal(escapes: bool, state: u64, byte: u8) -> u64
    ensures { result ≡ in_literal escapes state byte }
{
    if state >= BEHIND_BACKSLASH {
        state - BEHIND_BACKSLASH
    } else if state >= BEHIND_DELIMITER {
        if state == BEHIND_DELIMITER + byte as u64 {
            byte as u64
        } else {
            begun(byte)
        }
    } else if byte as u64 == state {
        BEHIND_DELIMITER + state
    } else if escapes && byte == b'\\' && state != b'`' as u64 {
        BEHIND_BACKSLASH + state
    } else {
        state
    }
}

fn in_line(state: u64, byte: u8) -> u64
    ensures { result ≡ in_line state byte }
{
    match state {
        DASH => if byte == b'-' { DASHES } else { begun(byte) },
        _ if byte == b'\n' => OUTSIDE,
        _ if state == LINE || byte <= b' ' || byte == 127 => LINE,
        _ if byte == b'-' => DASHES,
        _ => begun(byte),
    }
}

fn in_comment(state: u64, byte: u8) -> u64
    ensures { result ≡ in_comment state byte }
{
    match state {
        SLASH if byte == b'*' => SLASH_STAR,
        SLASH => begun(byte),
        SLASH_STAR if byte == b'M' => LETTER_M,
        SLASH_STAR if matches!(byte, b'!' | b'+') => LOST,
        LETTER_M if byte == b'!' => LOST,
        STAR if byte == b'/' => OUTSIDE,
        _ if byte == b'*' => STAR,
        _ => BLOCK,
    }
}

pub(crate) fn next(escapes: bool, state: u64, byte: u8) -> u64
    ensures { result ≡ mysql escapes state byte }
{
    if state == OUTSIDE {
        begun(byte)
    } else if state == LOST {
        LOST
    } else if state == WORD || state == LETTER || state == BITS {
        in_word(state, byte)
    } else if state == DASH || state == DASHES || state == LINE {
        in_line(state, byte)
    } else if state == SLASH
        || state == SLASH_STAR
        || state == LETTER_M
        || state == BLOCK
        || state == STAR
    {
        in_comment(state, byte)
    } else {
        in_literal(escapes, state, byte)
    }
}
