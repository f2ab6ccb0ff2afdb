//! What is started, as bytes and back.
ghost use Rattle.std.specs.Prelude.{◌≡◌, ◌≢◌, ◌<◌, ◌≤◌, ◌++◌, ℕ, List, length, pos, Some, Err, IfOk, IfSome, IfNone, OnOk, MatchOption};
ghost use Rattle.std.specs.Int.{w32, to_be_bytes};
ghost use Rattle.rk_message.specs.declared.ask.AskOf.TheVariants.{Request as request};
ghost use Rattle.rk_macro.specs.declared.subject.Subject.{Subject as Subjects};
ghost use Rattle.rk_volumes.specs.Rows.{subject_bytes};
ghost use Rattle.rk_volumes.specs.Rules.{IsWord, IsSubject};

use crate::fault::Unread;
use crate::numbers::word;
use rk_macro::{Op, Subject};
use rk_message::Ask;
use rk_names::{Callout, Description, Serial, TypeName};
use std::alloc::{AllocError, Global};

/// The numbers of a subject.
#[derive(Clone, Copy)]
struct Party {
    /// The key to be made.
    key: u32,
    /// The user of whoever requests it.
    uid: u32,
    /// The group of that user.
    gid: u32,
    /// The thread ring, 0 for none.
    thread: u32,
    /// The process ring, 0 for none.
    process: u32,
    /// The session ring, 0 for none.
    session: u32,
}

/// The numbers at the front, and what follows them; `None` for fewer bytes.
fn party_at(bytes: &[u8]) -> Option<(Party, &[u8])>
    ensures found { IfSome result (λ x. bytes.now ≡ to_be_bytes w32 x.0.key ++ (to_be_bytes w32 x.0.uid ++ (to_be_bytes w32 x.0.gid
        ++ (to_be_bytes w32 x.0.thread ++ (to_be_bytes w32 x.0.process ++ (to_be_bytes w32 x.0.session ++ x.1.now)))))) }
    ensures words { IfSome result (λ x. IsWord x.0.key × IsWord x.0.uid × IsWord x.0.gid × IsWord x.0.thread × IsWord x.0.process × IsWord x.0.session) }
    ensures only { IfNone result (length bytes.now < 24) }
{
    let (key, rest) = word(bytes)?;
    let (uid, rest) = word(rest)?;
    let (gid, rest) = word(rest)?;
    let (thread, rest) = word(rest)?;
    let (process, rest) = word(rest)?;
    let (session, rest) = word(rest)?;
    let party = Party {
        key,
        uid,
        gid,
        thread,
        process,
        session,
    };
    Some((party, rest))
}

/// The names of a request that asks for a callout and for no ring.
fn names_of(ask: Ask) -> Option<(TypeName, Description, Callout)>
    ensures { MatchOption result ((typ description callout : List ℕ) → ask ≢ request typ description (Some callout) (pos 0))
        (λ n. ask ≡ request n.0 n.1 (Some n.2) (pos 0)) }
{
    let Ask::Request {
        typ,
        description,
        callout,
        destination,
    } = ask
    else {
        return None;
    };
    let Some(callout) = callout else {
        return None;
    };
    if destination != 0 {
        return None;
    }
    Some((typ, description, callout))
}

/// The subject for this use that all of the bytes are.
pub(crate) fn read_subject(alloc: Global, op: Op, bytes: &[u8]) -> Result<Subject, Unread>
    ensures is { IfOk result (λ s. IsSubject s × (s.op ≡ op) × (bytes.now ≡ subject_bytes s)) }
    ensures none { result ≡ Err Unread.Bad → (s : Subjects) → IsSubject s → bytes.now ≢ subject_bytes s }
{
    let Some((party, rest)) = party_at(bytes) else {
        return Err(Unread::Bad);
    };
    let Some(key) = Serial::new(party.key) else {
        return Err(Unread::Bad);
    };
    let ask = Ask::read(alloc, rest)?;
    let Some((typ, desc, callout)) = names_of(ask) else {
        return Err(Unread::Bad);
    };
    Ok(Subject {
        key,
        op,
        typ,
        desc,
        callout,
        uid: party.uid,
        gid: party.gid,
        thread: party.thread,
        process: party.process,
        session: party.session,
    })
}

/// The bytes of a subject but for its use. An `Err` is out of memory.
pub(crate) fn subject_text(alloc: Global, subject: &Subject) -> Result<Vec<u8>, AllocError>
    ensures bytes { IfOk result (λ v. v.items ≡ subject_bytes subject.now) }
    ensures fits { IfOk result (λ v. length v.items ≤ 65560) }
    ensures is { OnOk result (IsSubject subject.now) }
{
    let names = Ask::Request {
        typ: subject.typ.clone()?,
        description: subject.desc.clone()?,
        callout: Some(subject.callout.clone()?),
        destination: 0,
    };
    let mut text = Vec::with_capacity(alloc, 24 + names.body_len())?;
    put_word(&mut text, subject.key.get())?;
    put_word(&mut text, subject.uid)?;
    put_word(&mut text, subject.gid)?;
    put_word(&mut text, subject.thread)?;
    put_word(&mut text, subject.process)?;
    put_word(&mut text, subject.session)?;
    names.write_into(&mut text)?;
    Ok(text)
}

/// Appends a number of four bytes.
fn put_word(text: &mut Vec<u8>, number: u32) -> Result<(), AllocError>
    ensures { OnOk result (text.new.items ≡ text.old.items ++ to_be_bytes w32 number) }
{
    text.extend_from_slice(&number.to_be_bytes())
}
