//! A record of a text, found by its number.

ghost use Rattle.std.specs.Prelude.{◌≡◌, [], true, IfOk, IfSome, OnOk};
ghost use Rattle.csv.specs.Machine.{fields_after, field_after};
ghost use Rattle.csv.specs.Reading.{strip_bom};
ghost use Rattle.csv.specs.Records.{fields_of, partial_of};
ghost use Rattle.volcano_locations.specs.Lines.{left_in, begins_on, Passes};
ghost use Rattle.volcano_locations.specs.Records.{ReadsOne, IsRecordAt};
ghost use Rattle.volcano_locations.specs.Stages.{state_of, action_of, is_between};

use crate::fault::PlaceFault;
use crate::source::ByteSource;
use crate::stage::{Action, RecordState};
use csv::ByteRecord;
use std::alloc::{AllocError, Global};
use vx_catalog_bytes::ByteIn;

/// A record of a text, and the line on which it begins, counted from 1.
#[derive(Drop)]
pub struct Record {
    pub fields: ByteRecord,
    pub line: u64,
}

// A record as it is read: its fields so far, the bytes of the next one, and the line on which it begins.
#[derive(Drop)]
struct OpenRecord {
    fields: ByteRecord,
    field: Vec<u8>,
    line: u64,
}

impl OpenRecord {
    fn new(alloc: Global) -> OpenRecord
        ensures whole { partial_of result.fields ≡ [] }
    {
        OpenRecord {
            fields: ByteRecord::new(alloc),
            field: Vec::new(alloc),
            line: 1,
        }
    }

    // Begins a record on a line.
    fn clear(&mut self, line: u64)
        ensures fields { fields_of self.new.fields ≡ [] }
        ensures whole { partial_of self.new.fields ≡ [] }
        ensures field { self.new.field.items ≡ [] }
        ensures line { self.new.line ≡ line }
    {
        self.fields.clear();
        self.field.clear();
        self.line = line;
    }

    // Ends the field at hand.
    fn end_field(&mut self) -> Result<(), AllocError>
        requires { partial_of self.old.fields ≡ [] }
        ensures fields { OnOk result (fields_of self.new.fields ≡ fields_after (action_of Action.EndField) (fields_of self.old.fields) self.old.field.items) }
        ensures whole { OnOk result (partial_of self.new.fields ≡ []) }
        ensures field { OnOk result (self.new.field.items ≡ []) }
        ensures line { self.new.line ≡ self.old.line }
    {
        self.fields.push_field(self.field.as_slice())?;
        self.field.clear();
        Ok(())
    }

    // Does what a byte does.
    fn take(&mut self, byte: u8, action: Action) -> Result<(), AllocError>
        requires { partial_of self.old.fields ≡ [] }
        ensures fields { OnOk result (fields_of self.new.fields ≡ fields_after (action_of action) (fields_of self.old.fields) self.old.field.items) }
        ensures whole { OnOk result (partial_of self.new.fields ≡ []) }
        ensures field { OnOk result (self.new.field.items ≡ field_after (action_of action) byte self.old.field.items) }
        ensures line { self.new.line ≡ self.old.line }
    {
        match action {
            Action::Skip => Ok(()),
            Action::Copy => {
                self.field.push(byte)?;
                Ok(())
            }
            Action::EndField | Action::EndRecord => self.end_field(),
        }
    }
}

// Reads the next record, and returns the stage behind it; or there is none.
fn read_record<R: ByteIn + Drop>(
    source: &mut ByteSource<R>,
    stage: RecordState,
    current: &mut OpenRecord,
) -> Result<Option<RecordState>, PlaceFault>
    requires between { is_between (state_of stage) ≡ true }
    requires whole { partial_of current.old.fields ≡ [] }
    ensures record { IfOk result (λ o. ReadsOne (left_in R.remaining source.old) (left_in R.remaining source.new) (state_of stage) (fields_of current.new.fields) o) }
    ensures line { IfOk result (λ o. IfSome o (λ _. IfSome (left_in R.remaining source.old) (λ xs. current.new.line ≡ begins_on source.old.line xs))) }
    ensures passes { IfOk result (λ o. IfSome o (λ _. Passes (left_in R.remaining source.old) (left_in R.remaining source.new) source.old.line source.new.line)) }
    ensures between { IfOk result (λ o. IfSome o (λ s. is_between (state_of s) ≡ true)) }
    ensures whole { OnOk result (partial_of current.new.fields ≡ []) }
{
    current.clear(source.line());
    let mut stage = stage;
    for _ in 0..u64::MAX {
        let Some(byte) = source.next()? else {
            if !stage.ends_record() {
                return Ok(None);
            }
            current.end_field()?;
            return Ok(Some(RecordState::StartRecord));
        };
        let turn = stage.step(byte);
        current.take(byte, turn.action)?;
        stage = turn.stage;
        if turn.action.is_last() {
            return Ok(Some(stage));
        }
        if stage.is_between() {
            current.line = source.line();
        }
    }
    Err(PlaceFault::Unreadable)
}

/// The record of a port's text with this number, counted from 0, if there is one: the header has the number 0.
pub fn record_at<R: ByteIn + Drop>(
    alloc: Global,
    port: R,
    number: usize,
) -> Result<Option<Record>, PlaceFault>
    ensures { IfOk result (λ o. IfSome o (λ r. IfSome (R.remaining port) (λ bytes. IsRecordAt (strip_bom bytes) number r.line (fields_of r.fields)))) }
{
    let mut source = ByteSource::new(alloc, port)?;
    let mut current = OpenRecord::new(alloc);
    let mut stage = RecordState::StartRecord;
    for _ in 0..number {
        match read_record(&mut source, stage, &mut current)? {
            Some(next) => stage = next,
            None => return Ok(None),
        }
    }
    match read_record(&mut source, stage, &mut current)? {
        Some(_) => Ok(Some(Record {
            fields: current.fields,
            line: current.line,
        })),
        None => Ok(None),
    }
}
