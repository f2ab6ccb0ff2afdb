//! A command to start.
ghost use Rattle.std.specs.Prelude.{◌≡◌};

use rk_conf::Word;
use std::marker::Model;

/// The words of a command, in their order.
#[derive(Debug, Drop)]
pub struct Words {
    /// Each is UTF-8 without a zero byte, as a program can get it.
    items: Vec<Word>,
}

impl Model for Words {
    ghost use Rattle.std.specs.Prelude.{List, ℕ};

    ghost Value = { List (List ℕ) };

    ghost view = { λ w. w.items.items };
}

impl Words {
    /// These words, which it moves. It takes no memory.
    pub fn new(items: Vec<Word>) -> Words
        ensures { result ≡ items.items }
    {
        Words { items }
    }

    /// The words themselves.
    pub fn as_slice(&self) -> &[Word]
        ensures { result.now ≡ self.now }
    {
        &self.items
    }
}

/// A command: the path of a program and the words after it.
#[derive(Debug, Drop)]
pub struct Command {
    /// The path, which begins with `/`.
    pub path: Word,
    /// The words, without the path.
    pub words: Words,
    /// Whether the callout and the payload go through pipes.
    pub piped: bool,
}
