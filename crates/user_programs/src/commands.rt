//! The commands that lines write.

/// A command about a set of numbers.
#[derive(Clone, Copy, Debug, PartialEq, Eq)]
pub enum Command {
    /// `add START END`
    Add(u64, u64),
    /// `covers X`
    Covers(u64),
    /// `remove START`
    Remove(u64),
    /// `total`
    Total,
}

/// Returns the command that a line writes, or `None` if it writes none.
pub fn read(line: &str) -> Option<Command> {
    if line == "total" {
        return Some(Command::Total);
    }
    let (word, rest) = line.split_once(' ')?;
    match word {
        "add" => {
            let (start, end) = rest.split_once(' ')?;
            Some(Command::Add(start.parse().ok()?, end.parse().ok()?))
        }
        "covers" => Some(Command::Covers(rest.parse().ok()?)),
        "remove" => Some(Command::Remove(rest.parse().ok()?)),
        _ => None,
    }
}
