//! The end of the statistics, which is known last: how long the write of the rows took.

ghost use Rattle.std.specs.Prelude.{◌≡◌, ◌||◌, ◌++◌, ◌-◌, is_err, codes, decimal, replicate, OnOk, Some};
ghost use Rattle.std.specs.Io.KnownBytes.{Appends};
ghost use Rattle.volcano_stats.specs.Columns.{milliseconds};
ghost use Rattle.volcano_stats.specs.Text.{write_end};

use crate::columns::thousandths;
use crate::text::StatsForm;
use itoa::Buffer;
use vx_catalog_bytes::{Broken, ByteOut, write_all};

// The spaces before a number of `digits` digits in ten places.
fn padding(spaces: &[u8; 10], digits: usize) -> &[u8]
    requires { spaces.now ≡ replicate 10 32 }
    ensures { result.now ≡ replicate (10 - digits) 32 }
{
    &spaces[digits.min(10)..]
}

// Writes `time`, in microseconds, as milliseconds, and the end of the line. No memory is asked for.
fn write_milliseconds<W: ByteOut>(out: &mut W, time: u64) -> Result<(), Broken>
    ensures ok { OnOk result (Appends (W.contents out.old) (W.contents out.new) (milliseconds (Some time) ++ codes "\n")) }
    ensures fails { W.has_failed out.new ≡ (W.has_failed out.old || is_err result) }
{
    let spaces = [b' '; 10];
    let mut digits = Buffer::new();
    let whole = digits.format(time / 1000).as_bytes();
    write_all(out, padding(&spaces, whole.len()))?;
    write_all(out, whole)?;
    write_all(out, &thousandths(time % 1000))?;
    write_all(out, b"\n")
}

// Writes a number, and the end of the object. No memory is asked for.
fn write_microseconds<W: ByteOut>(out: &mut W, time: u64) -> Result<(), Broken>
    ensures ok { OnOk result (Appends (W.contents out.old) (W.contents out.new) (decimal time ++ codes "}]}\n")) }
    ensures fails { W.has_failed out.new ≡ (W.has_failed out.old || is_err result) }
{
    let mut digits = Buffer::new();
    write_all(out, digits.format(time).as_bytes())?;
    write_all(out, b"}]}\n")
}

/// Writes the time of the write and the end of the statistics. No memory is asked for.
pub fn write_end<W: ByteOut>(out: &mut W, form: StatsForm, time: Option<u64>) -> Result<(), Broken>
    ensures ok { OnOk result (Appends (W.contents out.old) (W.contents out.new) (write_end form time)) }
    ensures fails { W.has_failed out.new ≡ (W.has_failed out.old || is_err result) }
{
    match (form, time) {
        (StatsForm::Table, Some(time)) => write_milliseconds(out, time),
        (StatsForm::Table, None) => write_all(out, b"             -\n"),
        (StatsForm::Json, Some(time)) => write_microseconds(out, time),
        (StatsForm::Json, None) => write_all(out, b"null}]}\n"),
    }
}
