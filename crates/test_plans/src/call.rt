//! What a case calls.

/// What is done with the plan of a case.
#[derive(Clone, Copy)]
pub enum Call {
    /// It is read.
    Read,
    /// Its text is taken for a JSON value, and that is read.
    OfValue,
    /// Each front of its text is refused as no JSON, and the whole is read.
    Fronts,
    /// It is read and written.
    Written,
    /// It reads as another text does.
    Alike,
    /// It is resolved over the catalog.
    Resolve,
    /// It is resolved, and its nodes shown with their numbers.
    Numbered,
    /// It is resolved, and the columns of its root are shown.
    Columns,
    /// It is another plan once its exchanges are left out.
    Erased,
    /// Its exchanges are left out, and its nodes shown with their numbers.
    Renumbered,
    /// It is checked.
    Check,
    /// It is checked and explained.
    Explain,
    /// It is annotated.
    Annotate,
    /// Nothing: it is said that memory for it was refused.
    NoMemory,
}

impl Call {
    /// The call of this name.
    pub fn named(name: &str) -> Option<Call> {
        match name {
            "read" => Some(Call::Read),
            "of_value" => Some(Call::OfValue),
            "fronts" => Some(Call::Fronts),
            "written" => Some(Call::Written),
            "alike" => Some(Call::Alike),
            "resolve" => Some(Call::Resolve),
            "numbered" => Some(Call::Numbered),
            "columns" => Some(Call::Columns),
            "erased" => Some(Call::Erased),
            "renumbered" => Some(Call::Renumbered),
            "check" => Some(Call::Check),
            "explain" => Some(Call::Explain),
            "annotate" => Some(Call::Annotate),
            "no_memory" => Some(Call::NoMemory),
            _ => None,
        }
    }
}
