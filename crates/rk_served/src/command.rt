//! The command for a key under construction.
ghost use Rattle.std.specs.Prelude.{◌≡◌, ℕ, List, option_map, MatchOption, IfOk};
ghost use Rattle.rk_machine.specs.Views.{Peeks};
ghost use Rattle.rk_served.specs.Commands.{IsCommand, HasNoCommand};

use crate::occasion::Occasion;
use rk_core::Book;
use rk_macro::{Command, Subject, Wanted, expand};
use rk_names::Serial;
use std::alloc::{AllocError, Global};

/// A copy of the payload that `%{..}` names, if the requester can find it.
fn look_up(
    occasion: &Occasion<'_>,
    book: &Book,
    key: Serial,
    wanted: &Wanted,
) -> Result<Option<Vec<u8>>, AllocError>
    ensures { IfOk result (λ seen. Peeks book.now key wanted.now.typ wanted.now.desc occasion.now.moment (option_map (λ v. v.items) seen)) }
{
    match book.peek(key, &wanted.typ, &wanted.desc, occasion.moment) {
        Some(payload) => Ok(Some(Vec::from_slice(occasion.alloc, payload)?)),
        None => Ok(None),
    }
}

/// The command of the chosen line. There is none if no line is chosen, or if its words can't be made, also
/// when out of memory.
pub fn command_for(
    occasion: &Occasion<'_>,
    book: &Book,
    key: Serial,
    subject: &Subject,
) -> Option<Command>
    ensures { MatchOption result (HasNoCommand occasion.now.conf.now book.now occasion.now.moment key subject.now)
        (λ c. IsCommand occasion.now.conf.now book.now occasion.now.moment key subject.now c) }
{
    let line = occasion.conf.pick(
        subject.op.as_bytes(),
        &subject.typ,
        &subject.desc,
        &subject.callout,
    )?;
    let look = |wanted: &Wanted| -> Result<Option<Vec<u8>>, AllocError>
        ensures { IfOk result (λ seen. Peeks book.entry.now key wanted.now.typ wanted.now.desc occasion.entry.now.moment (option_map (λ v. v.items) seen)) }
    { look_up(occasion, book, key, wanted) };
    match expand(occasion.alloc, line, subject, look) {
        Ok(command) => Some(command),
        Err(_) => None,
    }
}
