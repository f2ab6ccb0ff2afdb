//! An argument of a line that borrows it, read and not copied yet.
ghost use Rattle.std.specs.Prelude.{◌≡◌, ◌≢◌, ◌<◌, ◌≤◌, ℕ, ◌&&◌, is_none, length, slice_index, true, Some, None, IfOk, IfSome, MatchOption, option_map};
ghost use Rattle.std.specs.Prelude.{option_copied};
ghost use Rattle.rk_text.specs.Text.{is_text};
ghost use Rattle.rk_names.specs.Rules.{type_fault, description_fault};
ghost use Rattle.rk_conf.specs.Macros.{argument_of, macro_of, letter_macro, payload_macro, wanted_of, in_braces};
ghost use Rattle.rk_conf.specs.Borrowed.{argument_from, HasText};

use crate::argument::{Argument, Wanted};
use crate::word::Word;
use rk_names::{Description, TypeName};
use rk_text::begins_with;
use std::alloc::{AllocError, Global};

/// An argument that borrows the line that it was read from.
#[derive(Drop)]
pub enum BorrowedArgument<'a> {
    /// A macro of one letter.
    Macro(Argument),
    /// The payload of a key, by the bytes of its type and of its description.
    Payload(&'a [u8], &'a [u8]),
    /// A word that stands for itself.
    Literal(&'a [u8]),
}

impl<'a> BorrowedArgument<'a> {
    /// What the field stands for; `None` if it begins with `%` and is no macro. It takes no memory.
    pub fn read(field: &'a [u8]) -> Option<BorrowedArgument<'a>>
        ensures argument { option_map argument_from result ≡ argument_of field.now }
        ensures text { is_text field.now ≡ true → IfSome result HasText }
    {
        if begins_with(b'%', field) {
            borrowed_macro(&field[1..])
        } else {
            Some(BorrowedArgument::Literal(field))
        }
    }

    /// The argument, with a copy of the bytes that it needs.
    pub fn copied(self, alloc: Global) -> Result<Argument, AllocError>
        requires { HasText self }
        ensures { IfOk result (λ a. a ≡ argument_from self.entry) }
    {
        match self {
            BorrowedArgument::Macro(argument) => Ok(argument),
            BorrowedArgument::Literal(text) => Ok(Argument::Literal(Word::new(alloc, text)?)),
            BorrowedArgument::Payload(typ, desc) => {
                let typ = TypeName::new(typ).map_err(|_| AllocError)?;
                let desc = Description::new(alloc, desc).map_err(|_| AllocError)?;
                Ok(Argument::Payload(Wanted { typ, desc }))
            }
        }
    }
}

/// What follows the first `%`: a literal that begins with `%`, a letter, or braces.
fn borrowed_macro(rest: &[u8]) -> Option<BorrowedArgument<'_>>
    ensures argument { option_map argument_from result ≡ macro_of rest.now }
    ensures text { is_text rest.now ≡ true → IfSome result HasText }
{
    if begins_with(b'%', rest) {
        Some(BorrowedArgument::Literal(rest))
    } else if rest.len() == 1 {
        match letter_macro(rest[0]) {
            Some(argument) => Some(BorrowedArgument::Macro(argument)),
            None => None,
        }
    } else {
        borrowed_payload(rest)
    }
}

/// `{type:description}`.
fn borrowed_payload(text: &[u8]) -> Option<BorrowedArgument<'_>>
    ensures argument { option_map argument_from result ≡ payload_macro text.now }
    ensures text { IfSome result HasText }
{
    let name = in_braces(text)?;
    let (typ, desc) = wanted_of(name)?;
    Some(BorrowedArgument::Payload(typ, desc))
}

/// The macro of one letter.
fn letter_macro(letter: u8) -> Option<Argument>
    ensures { result ≡ letter_macro letter }
{
    match letter {
        b'o' => Some(Argument::Operation),
        b'k' => Some(Argument::Key),
        b't' => Some(Argument::Type),
        b'd' => Some(Argument::Description),
        b'c' => Some(Argument::Callout),
        b'u' => Some(Argument::Uid),
        b'g' => Some(Argument::Gid),
        b'T' => Some(Argument::Thread),
        b'P' => Some(Argument::Process),
        b'S' => Some(Argument::Session),
        _ => None,
    }
}

/// What stands between two braces.
fn in_braces(text: &[u8]) -> Option<&[u8]>
    ensures { option_copied result ≡ in_braces text.now }
{
    if text.len() > 1 && text[0] == b'{' && text[text.len() - 1] == b'}' {
        Some(&text[1..text.len() - 1])
    } else {
        None
    }
}

/// The type and the description on both sides of the first colon, where both are valid names.
fn wanted_of(name: &[u8]) -> Option<(&[u8], &[u8])>
    ensures { MatchOption result (wanted_of name.now ≡ None) (λ w. wanted_of name.now ≡ Some (record { typ = w.0.now; desc = w.1.now })) }
{
    let colon = colon_place(name);
    if colon == name.len() {
        return None;
    }
    let (typ, desc) = (&name[..colon], &name[colon + 1..]);
    if are_names(typ, desc) {
        Some((typ, desc))
    } else {
        None
    }
}

/// Whether these are a valid type and a valid description.
fn are_names(typ: &[u8], desc: &[u8]) -> bool
    ensures { result ≡ (is_none (type_fault typ.now) && is_none (description_fault desc.now)) }
{
    TypeName::fault(typ).is_none() && Description::fault(desc).is_none()
}

/// The place of the first colon, or the length if there is none.
fn colon_place(name: &[u8]) -> usize
    ensures within { result ≤ length name.now }
    ensures before { (k : ℕ) → k < result → slice_index name.now k ≢ 58 }
    ensures at { result < length name.now → slice_index name.now result ≡ 58 }
{
    name.iter().position(|b| *b == b':').unwrap_or(name.len())
}
