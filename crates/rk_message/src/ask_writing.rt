//! Asks as bodies.

ghost use Rattle.std.specs.Prelude.{◌≡◌, ◌+◌, ◌≤◌, ◌++◌, length, vec_len, vec_capacity, IfOk, IfSome, OnOk, OnErr, IsOk};
ghost use Rattle.rk_message.specs.Wire.{U8, U32, I32, Blob, Maybe, Signed, IsValue, spelled, spelling};
ghost use Rattle.rk_message.specs.Table.{any, flags, join as join_kind, type_name as type_kind, description as description_kind};
ghost use Rattle.rk_message.specs.Table.{payload as payload_kind, callout as callout_kind, error as error_kind};
ghost use Rattle.rk_message.specs.Asks.{IsAsk, ask_message, flag_bits, join_number, error_number};
ghost use Rattle.rk_message.specs.Spellings.{all_bytes, field_bytes, AreTold, IsTold};

use crate::ask::{Ask, AskView};
use crate::spelling::{self, Field, Spelling};
use rk_names::{CalloutView, DescriptionView, KeyError, PayloadView, Serial, TypeView};
use std::alloc::{AllocError, Global};

impl Ask {
    /// How many bytes the ask's body has: at least 1, and few enough for a frame.
    pub fn body_len(&self) -> usize
        ensures len { result ≡ length (spelling (ask_message self.now)) }
        ensures fits { (1 ≤ result) × (result ≤ 65536) }
    {
        spelling::len(self.view().spelled())
    }

    /// The one spelling of the ask. The only refusal is out of memory.
    pub fn write(&self, alloc: Global) -> Result<Vec<u8>, AllocError>
        ensures ok { IfOk result (λ v. v.items ≡ spelling (ask_message self.now)) }
        // The fields keep what their types promise, so that the bytes read back as this ask alone.
        ensures ask { IsAsk self.now }
    {
        let mut out = Vec::new(alloc);
        self.write_into(&mut out)?;
        Ok(out)
    }

    /// Appends the one spelling of the ask. Memory is taken once, before anything is written, and
    /// only if there is no room; an `Err` leaves the bytes as they were.
    pub fn write_into(&self, out: &mut Vec<u8>) -> Result<(), AllocError>
        ensures ok { OnOk result (out.new.items ≡ out.old.items ++ spelling (ask_message self.now)) }
        ensures err { OnErr result (out.new.items ≡ out.old.items) }
        ensures succeeds { vec_len out.old + length (spelling (ask_message self.now)) ≤ vec_capacity out.old → IsOk result }
        ensures ask { IsAsk self.now }
    {
        let message = self.view().spelled();
        out.reserve(spelling::len(message))?;
        spelling::put(out, message);
        Ok(())
    }
}

impl<'a> AskView<'a> {
    /// The op byte and the fields after it.
    fn spelled(&self) -> Spelling<'a>
        ensures bytes { all_bytes result ≡ spelling (ask_message self.now) }
        ensures told { AreTold result }
        ensures ask { IsAsk self.now }
    {
        let none = Field::Absent;
        let fields = match self {
            AskView::Hello(greeting) => (
                word(greeting.uid),
                word(greeting.gid),
                own_rings(greeting.thread, greeting.process),
                joined(greeting.join),
            ),
            AskView::Request {
                typ,
                description,
                callout,
                destination,
            } => (
                typed(typ),
                described(description),
                called_out(callout),
                signed(*destination),
            ),
            AskView::Instantiate { key, payload, ring } => (
                signed(*key),
                held(payload),
                signed(*ring),
                none,
            ),
            AskView::Negate { key, timeout, ring } => (
                signed(*key),
                word(*timeout),
                signed(*ring),
                none,
            ),
            AskView::Reject {
                key,
                timeout,
                error,
                ring,
            } => (signed(*key), word(*timeout), failed(*error), signed(*ring)),
            AskView::Assume { key }
            | AskView::Read { key }
            | AskView::Describe { key }
            | AskView::Revoke { key }
            | AskView::Clear { ring: key }
            | AskView::Default { setting: key } => (signed(*key), none, none, none),
            AskView::Timeout { key, seconds } => { (signed(*key), word(*seconds), none, none) }
            AskView::Link { key, ring } | AskView::Unlink { key, ring } => {
                (signed(*key), signed(*ring), none, none)
            }
            AskView::Add {
                typ,
                description,
                payload,
                ring,
            } => (
                typed(typ),
                described(description),
                held(payload),
                signed(*ring),
            ),
            AskView::Callout => (none, none, none, none),
        };
        Spelling {
            op: self.op().byte(),
            fields,
        }
    }
}

/// A number without a rule.
fn word<'a>(number: u32) -> Field<'a>
    ensures bytes { field_bytes result ≡ spelled (U32 number) }
    ensures told { IsTold result }
    ensures kind { IsValue any (U32 number) }
{
    Field::Word(number)
}

/// A number with a sign.
fn signed<'a>(number: i32) -> Field<'a>
    ensures bytes { field_bytes result ≡ spelled (I32 number) }
    ensures told { IsTold result }
    ensures kind { IsValue Signed (I32 number) }
{
    Field::Signed(number)
}

/// Which own rings there are.
#[tactic(auto, using(crate::proofs::Kept::flags_kept))]
fn own_rings<'a>(thread: bool, process: bool) -> Field<'a>
    ensures bytes { field_bytes result ≡ spelled (U8 (flag_bits thread process)) }
    ensures told { IsTold result }
    ensures kind { IsValue flags (U8 (flag_bits thread process)) }
{
    Field::Byte(u8::from(thread) + 2 * u8::from(process))
}

/// The number of a ring to join.
fn joined<'a>(join: Option<Serial>) -> Field<'a>
    ensures bytes { field_bytes result ≡ spelled (U32 (join_number join)) }
    ensures told { IsTold result }
    ensures kind { IsValue join_kind (U32 (join_number join)) }
    ensures serial { IfSome join (λ n. 1 ≤ n) }
{
    match join {
        None => Field::Word(0),
        Some(serial) => Field::Word(serial.get()),
    }
}

/// The number of an error.
#[tactic(auto, using(crate::proofs::Kept::error_kept))]
fn failed<'a>(error: KeyError) -> Field<'a>
    ensures bytes { field_bytes result ≡ spelled (U32 (error_number error)) }
    ensures told { IsTold result }
    ensures kind { IsValue error_kind (U32 (error_number error)) }
{
    Field::Word(u32::from(error.errno().number()))
}

/// A type with its length before it.
fn typed<'a>(name: &TypeView<'a>) -> Field<'a>
    ensures bytes { field_bytes result ≡ spelled (Blob name.now) }
    ensures told { IsTold result }
    ensures kind { IsValue type_kind (Blob name.now) }
{
    Field::Block(name.as_bytes())
}

/// A description with its length before it.
fn described<'a>(name: &DescriptionView<'a>) -> Field<'a>
    ensures bytes { field_bytes result ≡ spelled (Blob name.now) }
    ensures told { IsTold result }
    ensures kind { IsValue description_kind (Blob name.now) }
{
    Field::Block(name.as_bytes())
}

/// A payload with its length before it.
fn held<'a>(payload: &PayloadView<'a>) -> Field<'a>
    ensures bytes { field_bytes result ≡ spelled (Blob payload.now) }
    ensures told { IsTold result }
    ensures kind { IsValue payload_kind (Blob payload.now) }
{
    Field::Block(payload.as_bytes())
}

/// A callout, if there is one.
fn called_out<'a>(callout: &Option<CalloutView<'a>>) -> Field<'a>
    ensures bytes { field_bytes result ≡ spelled (Maybe callout.now) }
    ensures told { IsTold result }
    ensures kind { IsValue callout_kind (Maybe callout.now) }
{
    match callout {
        None => Field::Optional(None),
        Some(text) => Field::Optional(Some(text.as_bytes())),
    }
}
