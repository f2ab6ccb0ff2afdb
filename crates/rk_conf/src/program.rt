//! The program of a line and what follows it.
ghost use Rattle.std.specs.Prelude.{◌≡◌, true};
ghost use Rattle.std.specs.List.{list_any};
ghost use Rattle.rk_text.specs.Text.{is_text, begins_with};
ghost use Rattle.rk_conf.specs.Text.{fields_of};
ghost use Rattle.rk_conf.specs.Lines.{path_of, is_bad_macro};

use crate::borrowed_argument::BorrowedArgument;
use rk_text::{Space, begins_with, cut_field};

/// Whether the program has a leading `|`, and the program without it.
pub fn path_of(prog: &[u8]) -> (bool, &[u8])
    ensures piped { result.0 ≡ begins_with 124 prog.now }
    ensures path { result.1.now ≡ path_of prog.now }
    ensures text { is_text prog.now ≡ true → is_text result.1.now ≡ true }
{
    if begins_with(b'|', prog) {
        (true, &prog[1..])
    } else {
        (false, prog)
    }
}

/// Whether an argument begins with `%` and is no macro.
pub fn has_bad_macro(args: &[u8]) -> bool
    ensures { result ≡ list_any is_bad_macro (fields_of args.now) }
{
    let mut rest = args;
    while let Some((field, after)) = cut_field(rest, Space::Any) {
        if BorrowedArgument::read(field).is_none() {
            return true;
        }
        rest = after;
    }
    false
}
