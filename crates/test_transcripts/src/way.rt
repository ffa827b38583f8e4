//! The ways to try a command.

/// How a command is tried.
#[derive(Clone, Copy)]
pub enum Way<'a> {
    /// So many times.
    Times(u32),
    /// Once, with what stands between angle brackets in its standard input repeated so many times.
    Units(usize),
    /// With each front of its standard input in the place of that.
    Fronts,
    /// What is read at this path, or as standard input if it is `-`, fails after each number of bytes.
    Reads(&'a str),
    /// The output takes each number of bytes, and the errors each number of bytes of the line that says so.
    Rooms,
    /// The output is a pipe that takes each number of bytes, and then nobody reads it any more.
    Pipes,
    /// The rows go to a place with another file. Each step there fails: the new file is not begun, takes each number of bytes, or is not put
    /// there.
    Places,
    /// The errors take each number of bytes.
    ErrorRooms,
    /// The output takes so many bytes, of which the number alone is compared.
    Bytes(usize),
}

/// The way that a text names.
pub fn way_named(text: &str) -> Option<Way<'_>> {
    if let Some(path) = text.strip_prefix("each read of ") {
        return Some(Way::Reads(path));
    }
    match text {
        "once" => Some(Way::Times(1)),
        "each front" => Some(Way::Fronts),
        "each room" => Some(Way::Rooms),
        "each pipe" => Some(Way::Pipes),
        "each place" => Some(Way::Places),
        "each room for errors" => Some(Way::ErrorRooms),
        _ => match text.split_once(' ')? {
            (number, "times") => Some(Way::Times(number.parse::<u32>().ok()?)),
            (number, "units") => Some(Way::Units(number.parse::<usize>().ok()?)),
            (number, "bytes") => Some(Way::Bytes(number.parse::<usize>().ok()?)),
            _ => None,
        },
    }
}
