//! Texts in blocks.

ghost use Rattle.std.specs.Prelude.{◌≡◌, ◌||◌, ◌++◌, is_err, OnOk};
ghost use Rattle.std.specs.Io.KnownBytes.{Appends};

use crate::lines::Lines;
use std::alloc::AllocError;
use std::marker::Model;
use vx_catalog_bytes::{Broken, ByteOut, write_all};

/// A text in blocks, one behind the other. To add lines copies no byte.
#[derive(Drop)]
pub struct Text {
    first: Vec<u8>,
    others: Vec<Lines>,
}

impl Model for Text {
    ghost use Rattle.std.specs.Prelude.{◌++◌, flat_map};
    ghost use Rattle.vx_catalog_writing.specs.Text.{TextView};

    ghost Value = { TextView };

    ghost view = { λ t. record { items = t.first.items ++ flat_map (λ l. l) t.others.items } };
}

impl From<Vec<u8>> for Text {
    ghost use Rattle.std.specs.Prelude.{◌≡◌};

    ghost from_gives = { λ bytes text. text.items ≡ bytes.items };

    fn from(bytes: Vec<u8>) -> Text {
        let others = Vec::new(*bytes.allocator());
        Text {
            first: bytes,
            others,
        }
    }
}

impl Text {
    /// Adds lines behind it.
    pub(crate) fn push(&mut self, lines: Lines) -> Result<(), AllocError>
        ensures { OnOk result (self.new.items ≡ self.old.items ++ lines) }
    {
        self.others.push(lines)?;
        Ok(())
    }

    /// Writes the whole text. After an `Err` some of it may have been written.
    pub fn write_to<O: ByteOut>(&self, out: &mut O) -> Result<(), Broken>
        ensures ok { OnOk result (Appends (O.contents out.old) (O.contents out.new) self.now.items) }
        ensures fails { O.has_failed out.new ≡ (O.has_failed out.old || is_err result) }
    {
        write_all(out, self.first.as_slice())?;
        for lines in &self.others {
            write_all(out, lines.bytes())?;
        }
        Ok(())
    }
}
