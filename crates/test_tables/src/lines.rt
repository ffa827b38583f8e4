//! Cases as lines of text. An array of as many cases would take far longer to prove.

/// The parts of a line, with ` | ` between them: what the case shows, what is given, and what has to come of it.
pub fn parts(line: &str) -> Option<(&str, &str, &str)> {
    let (name, rest) = line.split_once(" | ")?;
    let (given, wanted) = rest.split_once(" | ")?;
    Some((name, given, wanted))
}

/// Three numbers, as `256 1024 8`.
pub fn three_numbers(text: &str) -> Option<(u32, u32, u32)> {
    let mut words = text.split_whitespace();
    let first = words.next()?.parse::<u32>().ok()?;
    let second = words.next()?.parse::<u32>().ok()?;
    let third = words.next()?.parse::<u32>().ok()?;
    Some((first, second, third))
}
