ghost use Rattle.std.specs.Prelude.{Some};

use std::fmt;

/// What is known of a storage as a whole.
#[derive(Clone, Copy, Debug, PartialEq, Eq)]
pub enum Condition {
    /// Nothing is stored here.
    Absent,
    /// Somebody is setting the words up.
    Forming,
    /// The words can be used.
    Ready,
    /// The memory is damaged, or too short to hold a condition.
    Broken,
    /// The words were laid out by another version.
    OtherVersion,
}

/// The conditions that a caller can ask for.
///
/// A storage becomes broken, or another version's, by what happens to its memory and never by a call, so there is no
/// value here that asks for either.
#[derive(Clone, Copy, Debug, PartialEq, Eq)]
pub enum Stage {
    Absent,
    Forming,
    Ready,
}

/// The word by which a condition is printed.
impl fmt::Display for Condition {
    ghost use Rattle.dynamic_storage.specs.Texts.{condition_text};

    ghost output = { λ condition. Some (condition_text condition) };

    fn fmt<W: fmt::Write>(&self, f: &mut fmt::Formatter<W>) -> fmt::Result {
        f.write_str(match self {
            Condition::Absent => "absent",
            Condition::Forming => "forming",
            Condition::Ready => "ready",
            Condition::Broken => "broken",
            Condition::OtherVersion => "other",
        })
    }
}
