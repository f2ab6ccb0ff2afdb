//! What a gate learns of a command at its end.

use crate::driven::Driven;
use rk_macro::Subject;
use rk_names::Serial;

/// What a command has done by its output.
#[derive(Clone, Copy, Debug, PartialEq, Eq)]
pub struct Course {
    /// Whether it made the key: a plain handler by an ask that completed it, a piped one by a payload that its hall is handed.
    pub made: bool,
    /// Whether the asks of a plain handler ended at a length that no frame has, as those of a program do that outputs text.
    pub malformed: bool,
}

impl Course {
    ghost use Rattle.std.specs.Prelude.{◌≡◌, false};

    /// That of a command that has done nothing.
    pub fn new() -> Course
        ensures { result ≡ record { made = false; malformed = false } }
    {
        Course {
            made: false,
            malformed: false,
        }
    }
}

/// What became of a command of a launch, with what an operator needs to know of it.
#[derive(Clone, Copy, Debug)]
pub struct Report<'a> {
    /// The key under construction.
    pub key: Serial,
    /// What the command was for. `None` only if it ran, and its hall did not owe its launch any more.
    pub subject: Option<&'a Subject>,
    /// What became of it.
    pub driven: Driven,
    /// What it has done by its output.
    pub course: Course,
    /// The system's error number (errno(3)) of a start that failed, if there is one.
    pub os_error: Option<i32>,
}
