//! [`Mode`]: what a run makes of its numbers, and the words that name the modes.
ghost use Rattle.std.specs.Prelude.{◌≡◌, ◌≤◌, Some, List, ℕ, length};
ghost use Rattle.ne_runs.specs.Modes.{mode_of, word_of};
ghost use Rattle.ne_runs.specs.declared.mode.Mode.{Mode};

/// What a run makes of its numbers.
#[derive(Clone, Copy, Debug, PartialEq, Eq)]
pub enum Mode {
    /// How many numbers there are, the first and the last, on one line.
    Ends,
    /// The least number, the greatest and the sum of all, on one line.
    Stats,
    /// The runs of equal numbers, one line each.
    Equal,
    /// The runs of numbers that are all even or all odd, one line each.
    Parity,
    /// Each number once, in the order in which they first appear, on one line.
    Distinct,
    /// The runs of numbers that differ from their run's first by at most 1, one line each.
    Near,
    /// The runs of numbers that differ from the one before by at most 1, one line each.
    Chain,
}

/// The number of bytes in the longest word of a mode.
pub const LONGEST_WORD: usize = 8;

/// Each mode has a word that names it, of at most [`LONGEST_WORD`] bytes, and no other word names
/// it.
pub fn modes_have_words()
    ensures named { (mode : Mode) → mode_of (word_of mode) ≡ Some mode }
    ensures only { (word : List ℕ) (mode : Mode) → mode_of word ≡ Some mode
        → word ≡ word_of mode }
    ensures short { (mode : Mode) → length (word_of mode) ≤ LONGEST_WORD }
{}

impl Mode {
    /// Returns the mode that `word` names, or `None` if it names none.
    pub fn named(word: &str) -> Option<Mode>
        ensures { result ≡ mode_of word.now }
    {
        match word {
            "ends" => Some(Mode::Ends),
            "stats" => Some(Mode::Stats),
            "equal" => Some(Mode::Equal),
            "parity" => Some(Mode::Parity),
            "distinct" => Some(Mode::Distinct),
            "near" => Some(Mode::Near),
            "chain" => Some(Mode::Chain),
            _ => None,
        }
    }
}
