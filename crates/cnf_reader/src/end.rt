//! Where a text ends.

ghost use Rattle.std.specs.Prelude.{◌≡◌, ◌≤◌, ◌+◌, ◌==◌, if◌then◌else◌, length};
ghost use Rattle.tptp_lexer.specs.Spots.{spot_at};

// The line and the column behind a byte.
fn past(line: u32, column: u32, byte: u8) -> (u32, u32)
    requires line { line ≤ 16777216 }
    requires column { column ≤ 16777216 }
    ensures line { result.0 ≡ (if byte == 10 then line + 1 else line) }
    ensures column { result.1 ≡ (if byte == 10 then 1 else column + 1) }
{
    if byte == b'\n' {
        (line + 1, 1)
    } else {
        (line, column + 1)
    }
}

/// The line and the column behind the last byte of a text.
pub fn end_of(bytes: &[u8]) -> (u32, u32)
    requires { length bytes.now ≤ 16777216 }
    ensures line { result.0 ≡ (spot_at bytes.now (length bytes.now)).line }
    ensures column { result.1 ≡ (spot_at bytes.now (length bytes.now)).column }
{
    let mut line = 1;
    let mut column = 1;
    for byte in bytes {
        let (next_line, next_column) = past(line, column, *byte);
        line = next_line;
        column = next_column;
    }
    (line, column)
}
