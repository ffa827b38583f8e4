//! Lines and columns in a text.

ghost use Rattle.std.specs.Prelude.{◌≡◌, ◌+◌, ◌≤◌, ◌<◌, ◌==◌, length, take, count_by, not};
ghost use Rattle.std.specs.List.{suffix_len};
ghost use Rattle.volcano_documents.specs.Places.{is_line_feed, begins_character, last_line, line_of, column_of};

/// A place in a text. Lines and columns count from 1, columns in characters, as an editor does.
#[derive(Clone, Copy, PartialEq, Eq)]
pub struct Position {
    pub line: u64,
    pub column: u64,
}

// Whether a byte ends a line.
fn is_line_feed(byte: u8) -> bool
    ensures { result ≡ is_line_feed byte }
{
    byte == b'\n'
}

// Whether a byte is the first of a character in UTF-8.
fn begins_character(byte: u8) -> bool
    ensures { result ≡ begins_character byte }
{
    byte < 0x80 || byte >= 0xC0
}

// Where the last line of a text begins.
fn start_of_line(front: &[u8]) -> usize
    ensures { result + suffix_len (λ b. not (is_line_feed b)) front.now ≡ length front.now }
{
    let mut start = front.len();
    while start > 0 && !is_line_feed(front[start - 1]) {
        start -= 1;
    }
    start
}

// How many lines end in a text.
fn count_lines(front: &[u8]) -> usize
    ensures count { result ≡ count_by is_line_feed front.now }
    ensures few { result ≤ length front.now }
{
    front.iter().filter(|byte| is_line_feed(**byte)).count()
}

// How many characters begin in a text.
fn count_characters(line: &[u8]) -> usize
    ensures count { result ≡ count_by begins_character line.now }
    ensures few { result ≤ length line.now }
{
    line.iter().filter(|byte| begins_character(**byte)).count()
}

/// The place behind a front of a text.
pub fn place_behind(front: &[u8]) -> Position
    ensures line { result.line ≡ line_of front.now }
    ensures column { result.column ≡ column_of front.now }
{
    let line = count_lines(front);
    let start = start_of_line(front);
    let column = count_characters(&front[start..]);
    Position {
        line: 1 + line as u64,
        column: 1 + column as u64,
    }
}
