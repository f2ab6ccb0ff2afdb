//! The arguments of a line.
ghost use Rattle.std.specs.Prelude.{◌≡◌, true, IfOk};
ghost use Rattle.std.specs.List.{filter_map, list_any};
ghost use Rattle.rk_text.specs.Text.{is_text};
ghost use Rattle.rk_conf.specs.Text.{fields_of};
ghost use Rattle.rk_conf.specs.Macros.{argument_of};

use crate::argument::Argument;
use crate::borrowed_argument::BorrowedArgument;
use rk_text::{Space, cut_field};
use std::alloc::{AllocError, Global};
use std::marker::Model;

/// The arguments of a line, in their order. In a clause they are the list of them.
#[derive(Debug, Drop)]
pub struct Arguments {
    /// The arguments, in their order.
    items: Vec<Argument>,
}

impl Model for Arguments {
    ghost use Rattle.std.specs.Prelude.{List};
    ghost use Rattle.rk_conf.specs.declared.argument.Argument.{Argument};

    ghost Value = { List Argument };

    ghost view = { λ a. a.items.items };
}

impl Arguments {
    /// The arguments themselves.
    pub fn as_slice(&self) -> &[Argument]
        ensures { result.now ≡ self.now }
    {
        &self.items
    }

    /// The arguments of a text that has no bad macro; others are left out.
    pub(crate) fn read(alloc: Global, text: &[u8]) -> Result<Arguments, AllocError>
        requires { is_text text.now ≡ true }
        ensures { IfOk result (λ a. a ≡ filter_map argument_of (fields_of text.now)) }
    {
        let mut items = Vec::new(alloc);
        let mut rest = text;
        while let Some((field, after)) = cut_field(rest, Space::Any) {
            if let Some(argument) = BorrowedArgument::read(field) {
                items.push(argument.copied(alloc)?)?;
            }
            rest = after;
        }
        Ok(Arguments { items })
    }
}
