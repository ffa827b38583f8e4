//! How far a record is read, one byte at a time.

ghost use Rattle.std.specs.Prelude.{◌≡◌};
ghost use Rattle.csv.specs.Machine.{step, start_record, start_field, in_field, is_end, ends_at_end};
ghost use Rattle.csv.specs.Reading.{default_config};
ghost use Rattle.volcano_locations.specs.Stages.{state_of, action_of, turn_of, is_between};

/// Where in a record the next byte is.
#[derive(Clone, Copy)]
pub enum RecordState {
    StartRecord,
    StartField,
    InField,
    InQuoted,
    AfterQuote,
    AfterCr,
}

/// What a byte does.
#[derive(Clone, Copy)]
pub enum Action {
    Skip,
    Copy,
    EndField,
    EndRecord,
}

/// What a byte does, and where the next one is.
#[derive(Clone, Copy)]
pub struct Turn {
    pub stage: RecordState,
    pub action: Action,
}

fn go_to(stage: RecordState, action: Action) -> Turn
    ensures stage { result.stage ≡ stage }
    ensures action { result.action ≡ action }
{
    Turn { stage, action }
}

fn in_field(byte: u8) -> Turn
    ensures { turn_of result ≡ in_field default_config byte }
{
    match byte {
        b',' => go_to(RecordState::StartField, Action::EndField),
        b'\r' => go_to(RecordState::AfterCr, Action::EndRecord),
        b'\n' => go_to(RecordState::StartRecord, Action::EndRecord),
        _ => go_to(RecordState::InField, Action::Copy),
    }
}

fn start_field(byte: u8) -> Turn
    ensures { turn_of result ≡ start_field default_config byte }
{
    match byte {
        b'"' => go_to(RecordState::InQuoted, Action::Skip),
        _ => in_field(byte),
    }
}

fn start_record(byte: u8) -> Turn
    ensures { turn_of result ≡ start_record default_config byte }
{
    match byte {
        b'\r' | b'\n' => go_to(RecordState::StartRecord, Action::Skip),
        _ => start_field(byte),
    }
}

impl Action {
    /// Whether it ends the record.
    pub fn is_last(self) -> bool
        ensures { result ≡ is_end (action_of self) }
    {
        match self {
            Action::EndRecord => true,
            Action::Skip | Action::Copy | Action::EndField => false,
        }
    }
}

impl RecordState {
    /// What a byte does here.
    pub fn step(self, byte: u8) -> Turn
        ensures { turn_of result ≡ step default_config (state_of self) byte }
    {
        match (self, byte) {
            (RecordState::StartRecord, _) => start_record(byte),
            (RecordState::StartField, _) => start_field(byte),
            (RecordState::InField, _) => in_field(byte),
            (RecordState::InQuoted, b'"') => go_to(RecordState::AfterQuote, Action::Skip),
            (RecordState::InQuoted, _) => go_to(RecordState::InQuoted, Action::Copy),
            (RecordState::AfterQuote, b'"') => go_to(RecordState::InQuoted, Action::Copy),
            (RecordState::AfterQuote, _) => in_field(byte),
            (RecordState::AfterCr, b'\n') => go_to(RecordState::StartRecord, Action::Skip),
            (RecordState::AfterCr, _) => start_record(byte),
        }
    }

    /// Whether it is between two records.
    pub fn is_between(self) -> bool
        ensures { result ≡ is_between (state_of self) }
    {
        match self {
            RecordState::StartRecord | RecordState::AfterCr => true,
            RecordState::StartField
            | RecordState::InField
            | RecordState::InQuoted
            | RecordState::AfterQuote => false,
        }
    }

    /// Whether the end of the text ends a record here.
    pub fn ends_record(self) -> bool
        ensures { result ≡ ends_at_end (state_of self) }
    {
        !self.is_between()
    }
}
