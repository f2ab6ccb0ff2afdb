//! A line of the configuration.
ghost use Rattle.std.specs.Prelude.{◌≡◌, ◌↔◌, IsTrue, Some, IfOk, IfErr};
ghost use Rattle.rk_conf.specs.Text.{fields_of};

use crate::arguments::Arguments;
use crate::fault::ConfKind;
use crate::fields::Fields;
use crate::word::Word;
use rk_glob::matches;
use rk_names::{Callout, Description, TypeName};
use std::alloc::{AllocError, Global};

/// A line of the configuration: which requests it is for, and the program that answers them.
///
/// The four patterns are as `rk_glob::matches` takes them (request-key.conf(5)).
#[derive(Debug, Drop)]
pub struct Line {
    /// Its number in the text, from 1, ignored lines counted.
    pub number: usize,
    /// The pattern of the operation, as `create`.
    pub op: Word,
    /// The pattern of the key's type.
    pub typ: Word,
    /// The pattern of the key's description.
    pub desc: Word,
    /// The pattern of the callout.
    pub callout: Word,
    /// The path of the program, which begins with `/`.
    pub prog: Word,
    /// The arguments, with their macros read.
    pub args: Arguments,
    /// Whether a `|` stood before the path: the callout and the payload go through pipes.
    pub piped: bool,
}

impl Line {
    ghost use Rattle.rk_conf.specs.Lines.{line_of, refusal_of};
    ghost use Rattle.rk_conf.specs.Faults.{IsKindFor};
    ghost use Rattle.rk_conf.specs.Fields.{line_from};
    ghost use Rattle.rk_conf.specs.Choice.{IsFor};

    /// The line of this text and number, or the first rule that it breaks.
    pub(crate) fn read(alloc: Global, number: usize, text: &[u8]) -> Result<Line, ConfKind>
        ensures ok { IfOk result (λ l. line_of number (fields_of text.now) ≡ Some l) }
        ensures err { IfErr result (λ k. IsKindFor k (refusal_of text.now)) }
    {
        match Fields::read(text) {
            Ok(fields) => Line::copied(alloc, number, fields).map_err(|_| ConfKind::NoMemory),
            Err(kind) => Err(kind),
        }
    }

    /// Whether its four patterns fit. It takes no memory.
    pub fn is_for(&self, op: &[u8], typ: &TypeName, desc: &Description, callout: &Callout) -> bool
        ensures { IsTrue result ↔ IsFor self.now op.now typ.now desc.now callout.now }
    {
        matches(self.op.as_bytes(), op)
            && matches(self.typ.as_bytes(), typ.as_bytes())
            && matches(self.desc.as_bytes(), desc.as_bytes())
            && matches(self.callout.as_bytes(), callout.as_bytes())
    }

    /// The line with a copy of each field.
    fn copied(alloc: Global, number: usize, fields: Fields<'_>) -> Result<Line, AllocError>
        ensures { IfOk result (λ l. l ≡ line_from number fields.entry) }
    {
        Ok(Line {
            number,
            op: Word::new(alloc, fields.op)?,
            typ: Word::new(alloc, fields.typ)?,
            desc: Word::new(alloc, fields.desc)?,
            callout: Word::new(alloc, fields.callout)?,
            prog: Word::new(alloc, fields.prog)?,
            args: Arguments::read(alloc, fields.args)?,
            piped: fields.piped,
        })
    }
}
