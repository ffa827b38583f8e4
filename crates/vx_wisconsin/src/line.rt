//! A row's line in the text, written into a buffer from its end: each part goes before what stands there already, so
//! that no part's length is asked for first.

ghost use Rattle.std.specs.Prelude.{◌≡◌, ◌+◌, ◌*◌, ◌<◌, ◌≤◌, ◌∷◌, ◌++◌, length, drop, flat_map};
ghost use Rattle.vx_catalog.specs.Csv.{line_text};
ghost use Rattle.vx_wisconsin.specs.Wisconsin.{unique1, numbers, letter, seven_letters, text_of, string4, row_of};
ghost use Rattle.vx_rows_values.specs.Limits.{max_generated_rows};
ghost use Rattle.vx_wisconsin.specs.Line.{number_text};

use itoa::write_digits;

/// The most bytes of a line: 13 numbers of up to 20 digits and three texts of 52 letters, each with a byte behind it.
pub const LINE_BYTES: usize = 13 * 21 + 3 * 53;

const FILLER_AND_COMMA: [u8; 46] = *b"xxxxxxxxxxxxxxxxxxxxxxxxxxxxxxxxxxxxxxxxxxxxx,";

const FILLER_AND_END: [u8; 49] = *b"xxxxxxxxxxxxxxxxxxxxxxxxxxxxxxxxxxxxxxxxxxxxxxxx\n";

/// The letters of the last column.
pub const TURNS: [u8; 4] = *b"AHOV";

/// The first column of row `i` of `rows`.
#[tactic(auto, unfolding(crate::specs::Wisconsin::unique1))]
pub fn unique1(rows: u64, i: u64) -> u64
    requires { (rows ≤ max_generated_rows) × (i < rows) }
    ensures { result ≡ unique1 rows i }
{
    if i % 2 == 0 {
        i / 2
    } else {
        (rows + 1) / 2 + i / 2
    }
}

/// The columns of numbers, where the first two are `u` and `i`.
pub fn numbers(u: u64, i: u64) -> [u64; 13]
    ensures { result ≡ numbers u i }
{
    let percent = u % 100;
    [
        u,
        i,
        u % 2,
        u % 4,
        u % 10,
        u % 20,
        percent,
        u % 10,
        u % 5,
        u % 2,
        u,
        percent * 2,
        percent * 2 + 1,
    ]
}

fn letter(digit: u64) -> u8
    ensures { result ≡ letter digit }
{
    b'A' + (digit % 26) as u8
}

/// A number in base 26.
#[tactic(auto, unfolding(crate::specs::Wisconsin::seven_letters))]
pub fn seven_letters(number: u64) -> [u8; 7]
    ensures { result ≡ seven_letters number }
{
    [
        letter(number / 308_915_776),
        letter(number / 11_881_376),
        letter(number / 456_976),
        letter(number / 17_576),
        letter(number / 676),
        letter(number / 26),
        letter(number),
    ]
}

// Puts bytes before `end`, and returns where they start.
fn put_bytes(buffer: &mut [u8], end: usize, bytes: &[u8]) -> usize
    requires { (length bytes.now ≤ end) × (end ≤ length buffer.old) }
    ensures start { result + length bytes.now ≡ end }
    ensures text { drop result buffer.new ≡ bytes.now ++ drop end buffer.old }
{
    let start = end - bytes.len();
    buffer[start..end].copy_from_slice(bytes);
    start
}

// Puts a number and a comma behind it.
fn put_number(buffer: &mut [u8], end: usize, number: u64) -> usize
    requires { (21 ≤ end) × (end ≤ length buffer.old) }
    ensures start { (result ≤ end) × (end ≤ result + 21) }
    ensures text { drop result buffer.new ≡ number_text number ++ drop end buffer.old }
{
    buffer[end - 1] = b',';
    write_digits(number, buffer, end - 1)
}

// Puts the columns of numbers, each with a comma behind it.
fn put_numbers(buffer: &mut [u8], end: usize, numbers: &[u64; 13]) -> usize
    requires { (13 * 21 ≤ end) × (end ≤ length buffer.old) }
    ensures start { (result ≤ end) × (end ≤ result + 13 * 21) }
    ensures text { drop result buffer.new ≡ flat_map number_text numbers.now ++ drop end buffer.old }
{
    let mut start = end;
    let mut left = numbers.len();
    while left > 0 {
        left -= 1;
        start = put_number(buffer, start, numbers[left]);
    }
    start
}

// Puts the text of a number and a comma behind it.
fn put_text_of(buffer: &mut [u8], end: usize, number: u64) -> usize
    requires { (53 ≤ end) × (end ≤ length buffer.old) }
    ensures start { result + 53 ≡ end }
    ensures text { drop result buffer.new ≡ text_of number ++ 44 ∷ drop end buffer.old }
{
    let filled = put_bytes(buffer, end, &FILLER_AND_COMMA);
    put_bytes(buffer, filled, &seven_letters(number))
}

// Puts the last column and the end of the line.
#[tactic(auto, unfolding(crate::specs::Wisconsin::string4))]
fn put_string4(buffer: &mut [u8], end: usize, i: u64) -> usize
    requires { (53 ≤ end) × (end ≤ length buffer.old) }
    ensures start { result + 53 ≡ end }
    ensures text { drop result buffer.new ≡ string4 i ++ 10 ∷ drop end buffer.old }
{
    let filled = put_bytes(buffer, end, &FILLER_AND_END);
    let turn = TURNS[(i % 4) as usize];
    put_bytes(buffer, filled, &[turn; 4])
}

/// Puts the line of row `i` of `rows` before `end`, and returns where it starts.
pub fn put_line(buffer: &mut [u8], end: usize, rows: u64, i: u64) -> usize
    requires row { (rows ≤ max_generated_rows) × (i < rows) }
    requires room { (432 ≤ end) × (end ≤ length buffer.old) }
    ensures start { (result ≤ end) × (end ≤ result + 432) }
    ensures text { drop result buffer.new ≡ line_text (row_of rows i) ++ drop end buffer.old }
{
    let unique1 = unique1(rows, i);
    let string4 = put_string4(buffer, end, i);
    let stringu2 = put_text_of(buffer, string4, i);
    let stringu1 = put_text_of(buffer, stringu2, unique1);
    put_numbers(buffer, stringu1, &numbers(unique1, i))
}
