//! The classes of bytes that std has no test of.

ghost use Rattle.std.specs.Prelude.{◌≡◌};
ghost use Rattle.ascii_text.specs.Bytes as class;

/// Whether the byte is white space: a tab, a line feed, a vertical tab, a form feed, a carriage return or a space.
pub fn is_white(byte: u8) -> bool
    ensures { result ≡ class.is_white byte }
{
    matches!(byte, b'\t'..=b'\r' | b' ')
}

/// Whether the byte is a letter, a digit or `_`.
pub fn is_word_byte(byte: u8) -> bool
    ensures { result ≡ class.is_word_byte byte }
{
    byte.is_ascii_lowercase() || byte.is_ascii_uppercase() || byte.is_ascii_digit() || byte == b'_'
}

/// Whether the byte is a space or a visible byte.
pub fn is_printable(byte: u8) -> bool
    ensures { result ≡ class.is_printable byte }
{
    matches!(byte, b' '..=b'~')
}

/// Whether the byte is a line feed or a carriage return.
pub fn is_line_end(byte: u8) -> bool
    ensures { result ≡ class.is_line_end byte }
{
    byte == b'\n' || byte == b'\r'
}

/// Whether the byte is no line feed.
pub fn is_in_line(byte: u8) -> bool
    ensures { result ≡ class.is_in_line byte }
{
    byte != b'\n'
}
