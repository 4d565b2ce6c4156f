//! How SQLite reads a text.
ghost use Rattle.std.specs.Prelude.{◌≡◌};
ghost use Rattle.database_readers.specs.SqliteReader.{begun, continues, in_mark, in_parameter, in_quotes, in_variable, in_word, outside_quotes, sqlite};

const OUTSIDE: u64 = 0;

const WORD: u64 = 1;

const NUMBER: u64 = 2;

const HEXADECIMAL: u64 = 3;

const LETTER_X: u64 = 4;

const BLOB: u64 = 5;

const MINUS: u64 = 6;

const LINE_COMMENT: u64 = 7;

const SLASH: u64 = 8;

const COMMENT: u64 = 9;

const COMMENT_STAR: u64 = 10;

const TEXT: u64 = 11;

const TEXT_QUOTE: u64 = 12;

const DOUBLE_QUOTED: u64 = 13;

const DOUBLE_QUOTE: u64 = 14;

const BACK_QUOTED: u64 = 15;

const BACK_QUOTE: u64 = 16;

const BRACKETED: u64 = 17;

const VARIABLE: u64 = 18;

const VARIABLE_NAME: u64 = 19;

const VARIABLE_COLON: u64 = 20;

const NAME_COLON: u64 = 21;

const ARGUMENTS: u64 = 22;

const PARAMETER: u64 = 23;

const MARK: u64 = 24;

const MARK_END: u64 = 25;

fn continues(byte: u8) -> bool
    ensures { result ≡ continues byte }
{
    byte.is_ascii_alphanumeric() || byte == b'_' || byte >= 128 || byte == b'$'
}

fn begun(byte: u8) -> u64
    ensures { result ≡ begun byte }
{
    match byte {
        b'\'' => TEXT,
        b'"' => DOUBLE_QUOTED,
        b'`' => BACK_QUOTED,
        b'[' => BRACKETED,
        b'-' => MINUS,
        b'/' => SLASH,
        b'x' | b'X' => LETTER_X,
        b'@' | b':' | b'#' | b'$' => VARIABLE,
        b'?' => PARAMETER,
        b'0'..=b'9' => NUMBER,
        239 => MARK,
        _ if continues(byte) => WORD,
        _ => OUTSIDE,
    }
}

fn in_word(byte: u8) -> u64
    ensures { result ≡ in_word byte }
{
    if continues(byte) { WORD } else { begun(byte) }
}

fn in_variable(byte: u8) -> u64
    ensures { result ≡ in_variable byte }
{
    if continues(byte) {
        VARIABLE_NAME
    } else if byte == b':' {
        VARIABLE_COLON
    } else {
        begun(byte)
    }
}

fn outside_quotes(state: u64, byte: u8) -> u64
    ensures { result ≡ outside_quotes state byte }
{
    match state {
        WORD => in_word(byte),
        NUMBER => if byte.is_ascii_digit() {
            NUMBER
        } else if matches!(byte, b'x' | b'X') {
            HEXADECIMAL
        } else {
            in_word(byte)
        },
        HEXADECIMAL if byte.is_ascii_hexdigit() => HEXADECIMAL,
        HEXADECIMAL => begun(byte),
        LETTER_X => if byte == b'\'' { BLOB } else { in_word(byte) },
        BLOB => if byte == b'\'' { OUTSIDE } else { BLOB },
        MINUS if byte == b'-' => LINE_COMMENT,
        MINUS => begun(byte),
        LINE_COMMENT => if byte == b'\n' { OUTSIDE } else { LINE_COMMENT },
        SLASH => if byte == b'*' { COMMENT } else { begun(byte) },
        COMMENT => if byte == b'*' { COMMENT_STAR } else { COMMENT },
        COMMENT_STAR => if byte == b'*' {
            COMMENT_STAR
        } else if byte == b'/' {
            OUTSIDE
        } else {
            COMMENT
        },
        _ => begun(byte),
    }
}

fn in_quotes(state: u64, byte: u8) -> u64
    ensures { result ≡ in_quotes state byte }
{
    match state {
        TEXT => if byte == b'\'' { TEXT_QUOTE } else { TEXT },
        TEXT_QUOTE => if byte == b'\'' { TEXT } else { begun(byte) },
        DOUBLE_QUOTED if byte == b'"' => DOUBLE_QUOTE,
        DOUBLE_QUOTED => DOUBLE_QUOTED,
        DOUBLE_QUOTE if byte == b'"' => DOUBLE_QUOTED,
        DOUBLE_QUOTE => begun(byte),
        BACK_QUOTED if byte == b'`' => BACK_QUOTE,
        BACK_QUOTED => BACK_QUOTED,
        BACK_QUOTE if byte == b'`' => BACK_QUOTED,
        BACK_QUOTE => begun(byte),
        BRACKETED => if byte == b']' { OUTSIDE } else { BRACKETED },
        _ => begun(byte),
    }
}

fn in_parameter(state: u64, byte: u8) -> u64
    ensures { result ≡ in_parameter state byte }
{
    match state {
        VARIABLE => in_variable(byte),
        VARIABLE_NAME => if continues(byte) {
            VARIABLE_NAME
        } else if byte == b':' {
            NAME_COLON
        } else if byte == b'(' {
            ARGUMENTS
        } else {
            begun(byte)
        },
        VARIABLE_COLON if byte == b':' => VARIABLE,
        VARIABLE_COLON => in_variable(byte),
        NAME_COLON if byte == b':' => VARIABLE_NAME,
        NAME_COLON => in_variable(byte),
        ARGUMENTS => if matches!(byte, b')' | b' ' | b'\t' | b'\n' | b'\r' | b'\x0c') {
            OUTSIDE
        } else {
            ARGUMENTS
        },
        PARAMETER if byte.is_ascii_digit() => PARAMETER,
        PARAMETER => begun(byte),
        _ => begun(byte),
    }
}

fn in_mark(state: u64, byte: u8) -> u64
    ensures { result ≡ in_mark state byte }
{
    if state == MARK && byte == 187 {
        MARK_END
    } else if state == MARK_END && byte == 191 {
        OUTSIDE
    } else {
        in_word(byte)
    }
}

pub(crate) fn next(state: u64, byte: u8) -> u64
    ensures { result ≡ sqlite state byte }
{
    match state {
        OUTSIDE..=COMMENT_STAR => outside_quotes(state, byte),
        TEXT..=BRACKETED => in_quotes(state, byte),
        VARIABLE..=PARAMETER => in_parameter(state, byte),
        _ => in_mark(state, byte),
    }
}
