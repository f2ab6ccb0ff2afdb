//! What is printed of a configuration.
ghost use Rattle.std.specs.Prelude.{◌≡◌, None, Ok, IfOk, IfErr};
ghost use Rattle.rk_preview.specs.Told.{FailsLine, IsChecked, IsNotChecked, IsNotPicked, IsPicked, TellsLine};

use crate::fault::Fault;
use crate::text::{count, told};
use rk_conf::{Conf, Line};
use rk_macro::{Subject, Wanted, expand};
use std::alloc::{AllocError, Global};

/// `ok, N lines`: how many lines of the text name a program. Refusals: `Conf`, and `NoMemory` for a text that has no fault.
pub fn checked(alloc: Global, text: &[u8]) -> Result<Vec<u8>, Fault>
    ensures told { IfOk result (λ v. IsChecked text.now v.items) }
    ensures refused { IfErr result (IsNotChecked text.now) }
{
    let conf = match Conf::read(alloc, text) {
        Ok(conf) => conf,
        Err(fault) => return Err(Fault::Conf(fault)),
    };
    match count(alloc, conf.lines().len()) {
        Ok(text) => Ok(text),
        Err(AllocError) => Err(Fault::NoMemory),
    }
}

/// The line of the text that a request chooses, and the words of its command, each in a line of its own: `line 3 plain`, the path and the words. Nothing is
/// started, and no key is looked for. Refusals: `Conf`; for a text without a fault `NoLine`; for words of the chosen line that can't be made `NoWords`, also
/// where an argument stands for the payload of a key; `NoMemory`.
pub fn picked(alloc: Global, text: &[u8], subject: &Subject) -> Result<Vec<u8>, Fault>
    ensures told { IfOk result (λ v. IsPicked subject.now text.now v.items) }
    ensures refused { IfErr result (IsNotPicked subject.now text.now) }
{
    let conf = match Conf::read(alloc, text) {
        Ok(conf) => conf,
        Err(fault) => return Err(Fault::Conf(fault)),
    };
    let (typ, desc, callout) = (&subject.typ, &subject.desc, &subject.callout);
    match conf.pick(subject.op.as_bytes(), typ, desc, callout) {
        Some(line) => of_line(alloc, line, subject),
        None => Err(Fault::NoLine),
    }
}

/// The same of the chosen line.
fn of_line(alloc: Global, line: &Line, subject: &Subject) -> Result<Vec<u8>, Fault>
    ensures told { IfOk result (λ v. TellsLine line.now subject.now v.items) }
    ensures refused { IfErr result (FailsLine line.now subject.now) }
{
    let none = |_wanted: &Wanted| -> Result<Option<Vec<u8>>, AllocError>
        ensures { result ≡ Ok None }
    { Ok(None) };
    match expand(alloc, line, subject, none) {
        Ok(command) => match told(alloc, line.number, &command) {
            Ok(text) => Ok(text),
            Err(AllocError) => Err(Fault::NoMemory),
        },
        Err(fault) => Err(Fault::NoWords(line.number, fault)),
    }
}
