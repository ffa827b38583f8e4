//! What is said of a refusal below its line.

ghost use Rattle.volcano_diagnostics.specs.Text.{word_of};
ghost use Rattle.std.specs.Prelude.{◌≡◌, ◌++◌, ◌∷◌, [], IfOk, OnOk, Some, None, string_bytes, IsSomeAnd};

use std::alloc::{AllocError, Global};

/// A value of a table, in the column of this name.
#[derive(Drop)]
pub struct Cell {
    pub column: String,
    pub value: Vec<u8>,
}

/// What a note says.
#[derive(Clone, Copy, Debug, PartialEq, Eq)]
pub enum Label {
    /// What is there.
    Found,
    /// What should be there.
    Expected,
    /// What the system said.
    Reason,
    /// What a node of a plan claims or does.
    Claimed,
    /// What the rule table shows there instead.
    Shown,
    /// What would help.
    Help,
}

impl Label {
    /// The word before the text of a note, which is also the name of its member in JSON.
    pub fn word(self) -> &'static str
        ensures { result.now ≡ word_of self }
    {
        match self {
            Label::Found => "found",
            Label::Expected => "expected",
            Label::Reason => "reason",
            Label::Claimed => "claimed",
            Label::Shown => "shown",
            Label::Help => "help",
        }
    }
}

/// A text behind a label, as `expected: a whole number`.
#[derive(Drop)]
pub struct Note {
    pub label: Label,
    pub text: String,
}

/// What is said of a refusal below its line: where it was found, what was expected there, and what would help. What is not known is
/// left out.
#[derive(Drop)]
pub struct Diagnostic {
    /// The file, or what stands for standard input.
    pub file: Option<String>,
    /// The lines of the file, counted from 1: one, or two where two rows are at fault together.
    pub lines: Vec<u64>,
    /// The character of the line, counted from 1.
    pub character: Option<u64>,
    /// The members of a JSON document that lead there, as `root.input.columns[1]`.
    pub path: Option<String>,
    /// The values of a table that are at fault.
    pub cells: Vec<Cell>,
    /// The plan around the node at fault, as `explain` prints it, with a mark at the node.
    pub plan: Vec<String>,
    pub notes: Vec<Note>,
}

impl Diagnostic {
    /// Nothing is known.
    pub fn new(alloc: Global) -> Diagnostic
        ensures nowhere { (result.file ≡ None) × (result.path ≡ None) × (result.character ≡ None) }
        ensures nothing { (result.lines.items ≡ []) × (result.cells.items ≡ []) × (result.plan.items ≡ []) × (result.notes.items ≡ []) }
    {
        Diagnostic {
            file: None,
            lines: Vec::new(alloc),
            character: None,
            path: None,
            cells: Vec::new(alloc),
            plan: Vec::new(alloc),
            notes: Vec::new(alloc),
        }
    }

    /// Somewhere in a file.
    pub fn in_file(alloc: Global, file: &str) -> Result<Diagnostic, AllocError>
        ensures file { IfOk result (λ d. IsSomeAnd d.file (λ f. string_bytes f ≡ file.now)) }
        ensures nothing { IfOk result (λ d. (d.lines.items ≡ []) × (d.path ≡ None) × (d.character ≡ None) × (d.cells.items ≡ []) × (d.plan.items ≡ []) × (d.notes.items ≡ [])) }
    {
        let mut made = Diagnostic::new(alloc);
        made.file = Some(String::from_str(alloc, file)?);
        Ok(made)
    }

    /// Adds a note behind the others.
    pub fn add_note(&mut self, note: Note) -> Result<(), AllocError>
        ensures note { OnOk result (self.new.notes.items ≡ self.old.notes.items ++ note ∷ []) }
        ensures place { OnOk result ((self.new.file ≡ self.old.file) × (self.new.lines ≡ self.old.lines) × (self.new.path ≡ self.old.path)) }
    {
        self.notes.push(note)?;
        Ok(())
    }

    /// Adds a value of a table behind the others.
    pub fn add_cell(&mut self, cell: Cell) -> Result<(), AllocError>
        ensures cell { OnOk result (self.new.cells.items ≡ self.old.cells.items ++ cell ∷ []) }
        ensures place { OnOk result ((self.new.file ≡ self.old.file) × (self.new.lines ≡ self.old.lines) × (self.new.path ≡ self.old.path)) }
    {
        self.cells.push(cell)?;
        Ok(())
    }
}
