//! What words ask of a configuration.
ghost use Rattle.std.specs.Prelude.{◌≡◌, [], IfOk, IfErr, OnErr, IsSome, length, take, drop, map, option_map, string_bytes};
ghost use Rattle.rk_options.specs.Options.{options_of};
ghost use Rattle.rk_options.specs.Said.{said_by};
ghost use Rattle.rk_preview.specs.Asked.{op_in, checked_in, pick_said};
ghost use Rattle.rk_preview.specs.Views.{asked_by};

use crate::fault::Fault;
use crate::names::Names;
use crate::numbers::Numbers;
use crate::telling::{checked, picked};
use rk_macro::{Op, Subject};
use rk_names::{Callout, Description, TypeName};
use rk_options::Options;
use std::alloc::{AllocError, Global};

/// The option of `check`.
const CHECK: [&str; 1] = ["--conf"];

/// The options of `pick`.
const PICK: [&str; 8] = [
    "--conf",
    "--negate",
    "--uid",
    "--gid",
    "--key",
    "--thread",
    "--process",
    "--session",
];

/// Those of them that have no value.
const FLAGS: [&str; 1] = ["--negate"];

/// What is to be seen of a configuration, whose path stands first.
#[derive(Debug, Drop)]
pub enum Preview<'a> {
    /// Whether it has a fault.
    Check(&'a str),
    /// What it starts for a request.
    Pick(&'a str, Subject),
}

impl<'a> Preview<'a> {
    ghost use Rattle.rk_preview.specs.Asked.{asked_said, path_of};
    ghost use Rattle.rk_preview.specs.Told.{IsTold, IsRefused};

    /// What words ask for: `check --conf PATH`, or `pick --conf PATH [OPTIONS] TYPE DESCRIPTION CALLOUT` with the options of [`Numbers::read`] and
    /// `--negate`, in any order before the last three words, each once at most, as `--uid 5` or `--uid=5`. `None` for all other words. The only refusal is
    /// out of memory, for words that ask for something.
    pub fn read(alloc: Global, words: &'a [String]) -> Result<Option<Preview<'a>>, AllocError>
        ensures said { IfOk result (λ r. option_map asked_by r ≡ asked_said (map string_bytes words.now)) }
        ensures memory { OnErr result (IsSome (asked_said (map string_bytes words.now))) }
    {
        match words {
            [word, words @ ..] if word.as_str() == "check" => Ok(check(words)),
            [word, words @ ..] if word.as_str() == "pick" => pick(alloc, words),
            _ => Ok(None),
        }
    }

    /// The path of the configuration.
    pub fn conf(&self) -> &'a str
        ensures { result.now ≡ path_of (asked_by self.now) }
    {
        match self {
            Preview::Check(conf) => conf,
            Preview::Pick(conf, _) => conf,
        }
    }

    /// What a configuration of this text has to say to it.
    pub fn of(&self, alloc: Global, text: &[u8]) -> Result<Vec<u8>, Fault>
        ensures told { IfOk result (λ v. IsTold (asked_by self.now) text.now v.items) }
        ensures refused { IfErr result (IsRefused (asked_by self.now) text.now) }
    {
        match self {
            Preview::Check(_) => checked(alloc, text),
            Preview::Pick(_, subject) => picked(alloc, text, subject),
        }
    }
}

/// The words after `check`.
fn check<'a>(words: &'a [String]) -> Option<Preview<'a>>
    ensures { option_map asked_by result ≡ checked_in (options_of [] (map string_bytes words.now)) }
{
    let options = Options { words, flags: &[] };
    if !options.are_known(&CHECK) {
        return None;
    }
    Some(Preview::Check(options.value_of("--conf")??))
}

/// The words after `pick`.
fn pick<'a>(alloc: Global, words: &'a [String]) -> Result<Option<Preview<'a>>, AllocError>
    ensures said { IfOk result (λ r. option_map asked_by r ≡ pick_said (map string_bytes words.now)) }
    ensures memory { OnErr result (IsSome (pick_said (map string_bytes words.now))) }
{
    let (words, last) = words.split_at(words.len().saturating_sub(3));
    let options = Options {
        words,
        flags: &FLAGS,
    };
    match Outline::read(&options, last) {
        Some(outline) => Ok(Some(Preview::Pick(outline.conf, outline.subject(alloc)?))),
        None => Ok(None),
    }
}

/// A request that borrows the words.
#[derive(Clone, Copy)]
struct Outline<'a> {
    /// The path of the configuration.
    conf: &'a str,
    /// The operation: `create` or `negate`.
    op: Op,
    /// The type, the description and the callout that are asked for.
    names: Names<'a>,
    /// The numbers of the key and of the requester that the command is made for.
    numbers: Numbers,
}

impl<'a> Outline<'a> {
    ghost use Rattle.std.specs.Prelude.{◌≡◌, IfOk, map, option_map, string_bytes};
    ghost use Rattle.rk_options.specs.Said.{said_by};
    ghost use Rattle.rk_preview.specs.Asked.{picked_in};
    ghost use Rattle.rk_preview.specs.Outlines.{outlined_by, subject_by};

    /// What options and the last words say.
    fn read(options: &Options<'a>, last: &'a [String]) -> Option<Outline<'a>>
        ensures { option_map outlined_by result ≡ picked_in (said_by options.now) (map string_bytes last.now) }
    {
        if !options.are_known(&PICK) {
            return None;
        }
        Some(Outline {
            conf: options.value_of("--conf")??,
            op: op(options)?,
            names: Names::read(last)?,
            numbers: Numbers::read(options)?,
        })
    }

    /// Its subject, with copies of the names.
    fn subject(&self, alloc: Global) -> Result<Subject, AllocError>
        ensures { IfOk result (λ s. s ≡ subject_by self.now) }
    {
        let (names, numbers) = (&self.names, &self.numbers);
        Ok(Subject {
            key: numbers.key,
            op: self.op,
            typ: TypeName::from_checked(names.typ.as_bytes()),
            desc: Description::from_checked(alloc, names.desc.as_bytes())?,
            callout: Callout::from_checked(alloc, names.callout.as_bytes())?,
            uid: numbers.uid,
            gid: numbers.gid,
            thread: numbers.thread,
            process: numbers.process,
            session: numbers.session,
        })
    }
}

/// What the key is to be made for: to be negated where the flag says so.
fn op(options: &Options<'_>) -> Option<Op>
    ensures { result ≡ op_in (said_by options.now) }
{
    match options.value_of("--negate")? {
        None => Some(Op::Create),
        Some("") => Some(Op::Negate),
        Some(_) => None,
    }
}
