//! The fields of a line that borrow it, read and not copied yet.
ghost use Rattle.std.specs.Prelude.{◌≡◌, ℕ, true, Some, None, IfOk, IfErr};
ghost use Rattle.rk_text.specs.Text.{is_text};
ghost use Rattle.rk_conf.specs.Text.{fields_of};

use crate::fault::ConfKind;
use crate::program::{has_bad_macro, path_of};
use rk_text::{Space, begins_with, cut_field, is_text};

/// The longest line, its newline not counted.
pub const MAX_LINE: usize = 8_192;

/// The fields of a line that breaks no rule; they borrow it.
#[derive(Clone, Copy)]
pub struct Fields<'a> {
    /// The pattern of the operation.
    pub op: &'a [u8],
    /// The pattern of the key's type.
    pub typ: &'a [u8],
    /// The pattern of the key's description.
    pub desc: &'a [u8],
    /// The pattern of the callout.
    pub callout: &'a [u8],
    /// The program without its leading `|`.
    pub prog: &'a [u8],
    /// Whether it had one.
    pub piped: bool,
    /// The arguments, with white space between them.
    pub args: &'a [u8],
    // The pattern of the operation is text: UTF-8 without NUL.
    ghost op_text: { is_text op.now ≡ true },
    // So is the type's pattern.
    ghost typ_text: { is_text typ.now ≡ true },
    // So is the description's.
    ghost desc_text: { is_text desc.now ≡ true },
    // So is the callout's.
    ghost callout_text: { is_text callout.now ≡ true },
    // So is the program's path.
    ghost prog_text: { is_text prog.now ≡ true },
    // So are the arguments.
    ghost args_text: { is_text args.now ≡ true },
}

impl<'a> Fields<'a> {
    ghost use Rattle.rk_conf.specs.Lines.{refusal_of, fields_fault, line_of};
    ghost use Rattle.rk_conf.specs.Fields.{line_from};

    /// The fields of a line, or the first rule that it breaks. It takes no memory.
    #[tactic(auto, unfolding(crate::specs::Lines::refusal_of))]
    pub fn read(line: &'a [u8]) -> Result<Fields<'a>, ConfKind>
        ensures ok { IfOk result (λ p. refusal_of line.now ≡ None) }
        ensures fields { IfOk result (λ p. (n : ℕ) → line_of n (fields_of line.now) ≡ Some (line_from n p)) }
        ensures err { IfErr result (λ k. refusal_of line.now ≡ Some k) }
    {
        if line.len() > MAX_LINE {
            return Err(ConfKind::TooLong);
        }
        if !is_text(line) {
            return Err(ConfKind::BadByte);
        }
        Fields::of_text(line)
    }

    /// The same of a line of text that is not too long.
    fn of_text(line: &'a [u8]) -> Result<Fields<'a>, ConfKind>
        requires { is_text line.now ≡ true }
        ensures ok { IfOk result (λ p. fields_fault (fields_of line.now) ≡ None) }
        ensures fields { IfOk result (λ p. (n : ℕ) → line_of n (fields_of line.now) ≡ Some (line_from n p)) }
        ensures err { IfErr result (λ k. fields_fault (fields_of line.now) ≡ Some k) }
    {
        let (op, rest) = cut_field(line, Space::Any).ok_or(ConfKind::TooFewFields)?;
        let (typ, rest) = cut_field(rest, Space::Any).ok_or(ConfKind::TooFewFields)?;
        let (desc, rest) = cut_field(rest, Space::Any).ok_or(ConfKind::TooFewFields)?;
        let (callout, rest) = cut_field(rest, Space::Any).ok_or(ConfKind::TooFewFields)?;
        let (prog, args) = cut_field(rest, Space::Any).ok_or(ConfKind::TooFewFields)?;
        let (piped, prog) = path_of(prog);
        if !begins_with(b'/', prog) {
            return Err(ConfKind::ProgNotAbsolute);
        }
        if has_bad_macro(args) {
            return Err(ConfKind::BadMacro);
        }
        Ok(Fields {
            op,
            typ,
            desc,
            callout,
            prog,
            piped,
            args,
        })
    }
}
