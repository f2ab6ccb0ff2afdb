//! The configuration: reading it, and picking a line.
ghost use Rattle.std.specs.Prelude.{◌≡◌, [], if◌then◌else◌, None, IfOk, IfErr, OnOk, slice_get, option_copied};
ghost use Rattle.rk_conf.specs.declared.fault.ConfKind.TheVariants.{NoMemory};
ghost use Rattle.rk_conf.specs.Text.{is_comment, fields_of};
ghost use Rattle.rk_conf.specs.Lines.{refusal_of};
ghost use Rattle.rk_conf.specs.Faults.{IsFaultFor};
ghost use Rattle.rk_conf.specs.Reading.{faults_in, lines_in};
ghost use Rattle.rk_conf.specs.Choice.{IsChosen, PicksOne};

use crate::fault::{ConfFault, ConfKind};
use crate::fields::Fields;
use crate::line::Line;
use rk_names::{Callout, Description, TypeName};
use rk_text::{Space, begins_with, cut_field, cut_line};
use std::alloc::Global;
use std::marker::Model;

/// A configuration: the lines of a text in their order, without blank lines and comments.
///
/// In a clause it is the list of its lines.
#[derive(Debug, Drop)]
pub struct Conf {
    /// The lines, in the order of the text.
    lines: Vec<Line>,
}

impl Model for Conf {
    ghost use Rattle.std.specs.Prelude.{List};
    ghost use Rattle.rk_conf.specs.declared.line.Line.{Line};

    ghost Value = { List Line };

    ghost view = { λ c. c.lines.items };
}

impl Conf {
    /// The lines of the text, cut at newlines; a last line needs none (request-key.conf(5)).
    ///
    /// Refusals: the first line that breaks a rule, with the first rule that it breaks, in the order `TooLong`, `BadByte`,
    /// `TooFewFields`, `ProgNotAbsolute`, `BadMacro`. `NoMemory` comes only for a text in which no line breaks one.
    /// Blank lines and lines that begin with `#` after white space are counted, and not read.
    pub fn read(alloc: Global, text: &[u8]) -> Result<Conf, ConfFault>
        ensures ok { OnOk result (faults_in text.now ≡ []) }
        ensures lines { IfOk result (λ conf. conf ≡ lines_in text.now) }
        ensures err { IfErr result (λ fault. IsFaultFor fault (faults_in text.now)) }
    {
        match first_fault(text) {
            Some(fault) => Err(fault),
            None => Conf::copied(alloc, text),
        }
    }

    /// The lines, in the order of the text.
    pub fn lines(&self) -> &[Line]
        ensures { result.now ≡ self.now }
    {
        &self.lines
    }

    /// The first line whose four patterns fit the operation, the type, the description and the callout; `None` if no
    /// line does. It takes no memory. (The request-key(8) of keyutils takes the best match instead.)
    pub fn pick(
        &self,
        op: &[u8],
        typ: &TypeName,
        desc: &Description,
        callout: &Callout,
    ) -> Option<&Line>
        ensures { IsChosen self.now op.now typ.now desc.now callout.now (option_copied result) }
    {
        first_for(&self.lines, op, typ, desc, callout)
    }

    /// The lines of a text that has no fault.
    #[tactic(auto, unfolding(crate::specs::Reading::faults_in, crate::specs::Reading::lines_in))]
    fn copied(alloc: Global, text: &[u8]) -> Result<Conf, ConfFault>
        requires { faults_in text.now ≡ [] }
        ensures lines { IfOk result (λ conf. conf ≡ lines_in text.now) }
        ensures err { IfErr result (λ fault. fault.kind ≡ NoMemory) }
    {
        let mut lines = Vec::new(alloc);
        let mut rest = Some(text);
        let mut number = 1;
        while let Some(left) = rest {
            let (line, after) = cut_line(left);
            if !is_comment(line) {
                match Line::read(alloc, number, line) {
                    Ok(made) => {
                        if lines.push(made).is_err() {
                            return Err(no_memory(number));
                        }
                    }
                    Err(_) => return Err(no_memory(number)),
                }
            }
            number += 1;
            rest = after;
        }
        Ok(Conf { lines })
    }
}

/// Out of memory at a line.
fn no_memory(line: usize) -> ConfFault
    ensures { result.kind ≡ NoMemory }
{
    ConfFault {
        line,
        kind: ConfKind::NoMemory,
    }
}

/// A blank line, or one whose first byte after white space is `#`.
fn is_comment(line: &[u8]) -> bool
    ensures { result ≡ is_comment (fields_of line.now) }
{
    match cut_field(line, Space::Any) {
        Some((field, _)) => begins_with(b'#', field),
        None => true,
    }
}

/// The first rule that a line breaks, unless the line is ignored. It takes no memory.
fn broken_rule(line: &[u8]) -> Option<ConfKind>
    ensures { result ≡ (if is_comment (fields_of line.now) then None else refusal_of line.now) }
{
    if is_comment(line) {
        return None;
    }
    match Fields::read(line) {
        Ok(_) => None,
        Err(kind) => Some(kind),
    }
}

/// The first fault of a text. It takes no memory.
#[tactic(auto, unfolding(crate::specs::Reading::faults_in))]
fn first_fault(text: &[u8]) -> Option<ConfFault>
    ensures { result ≡ slice_get (faults_in text.now) 0 }
{
    let mut rest = Some(text);
    let mut number = 1;
    while let Some(left) = rest {
        let (line, after) = cut_line(left);
        if let Some(kind) = broken_rule(line) {
            return Some(ConfFault { line: number, kind });
        }
        number += 1;
        rest = after;
    }
    None
}

/// The first of these lines that is for the request.
fn first_for<'a>(
    lines: &'a [Line],
    op: &[u8],
    typ: &TypeName,
    desc: &Description,
    callout: &Callout,
) -> Option<&'a Line>
    ensures { IsChosen lines.now op.now typ.now desc.now callout.now (option_copied result) }
{
    for line in lines {
        if line.is_for(op, typ, desc, callout) {
            return Some(line);
        }
    }
    None
}

/// A request picks one line of a configuration, or none: what `pick` answers is the only answer. Running it does nothing.
pub fn picks_one()
    ensures { PicksOne }
{}
