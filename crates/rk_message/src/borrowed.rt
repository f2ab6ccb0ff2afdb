//! An ask that stands elsewhere.
ghost use Rattle.std.specs.Prelude.{◌≡◌};

use crate::ask::AskView;
use std::marker::Model;

/// An ask that stands elsewhere: a reference, which is as small as a pointer. In clauses it is the ask.
#[derive(Debug, Drop)]
pub struct AskRef<'a> {
    /// The ask.
    ask: &'a AskView<'a>,
}

impl<'a> Model for AskRef<'a> {
    ghost use Rattle.rk_message.specs.Ask.{Ask};

    ghost Value = { Ask };

    ghost view = { λ s. s.ask.now };
}

impl<'a> AskRef<'a> {
    /// A reference to this ask.
    #[inline(always)]
    pub fn of(ask: &'a AskView<'a>) -> AskRef<'a>
        ensures { result ≡ ask.now }
    {
        AskRef { ask }
    }

    /// The ask.
    #[inline(always)]
    pub fn ask(&self) -> &'a AskView<'a>
        ensures { result.now ≡ self.now }
    {
        self.ask
    }

    /// The same once more.
    #[inline(always)]
    pub fn again(&self) -> AskRef<'a>
        ensures { result ≡ self.now }
    {
        AskRef { ask: self.ask }
    }
}
