//! Asks out of bodies: borrowed, and with names and a payload of their own.

ghost use Rattle.std.specs.Prelude.{◌≡◌, ◌≢◌, [], ◌∷◌, IfOk, MatchResult, Ok, Err};
ghost use Rattle.rk_message.specs.Wire.{I32, Signed, spelling};
ghost use Rattle.rk_message.specs.Table.{asks};
ghost use Rattle.rk_message.specs.Reading.{Reads, Gives, all_values, message_behind, message_at};
ghost use Rattle.rk_message.specs.Asks.{IsAsk, ReadsAsk, ask_message};
ghost use Rattle.rk_message.specs.Leftmost.{IsFaultOf};
ghost use Rattle.rk_message.specs.Ask.{Ask as Asks};
ghost use Rattle.rk_message.specs.declared.fault.Fault.{Fault as Faults};
ghost use Rattle.rk_message.specs.declared.fault.ReadError.TheVariants.{NoMemory, Fault as the_fault};

use crate::ask::{Ask, AskView};
use crate::fault::{Fault, ReadError};
use crate::field;
use crate::greeting::Greeting;
use rk_names::Serial;
use std::alloc::Global;

impl Ask {
    /// The ask that all of the body spells. `Err(Fault(..))` is the leftmost fault of a body that
    /// spells none; it is found before any memory is taken.
    pub fn read(alloc: Global, body: &[u8]) -> Result<Ask, ReadError>
        // What is read is spelled by the body.
        ensures found { IfOk result (λ a. IsAsk a × (body.now ≡ spelling (ask_message a))) }
        // An ask that the body spells is read, unless memory runs out.
        ensures only { (a : Asks) → IsAsk a → body.now ≡ spelling (ask_message a) → MatchResult result (λ b. b ≡ a) (λ e. e ≡ NoMemory) }
        // A body that has no reading is refused for its leftmost fault.
        ensures leftmost { (f : Faults) → result ≡ Err (the_fault f) → IsFaultOf asks body.now f }
        // Which ask or fault it is; memory runs out only for what has a reading.
        ensures exact { Gives ask_message result (message_at asks body.now) }
    {
        Ok(AskView::read(body)?.to_owned(alloc)?)
    }
}

impl<'a> AskView<'a> {
    /// The ask that all of the body spells, borrowed from it. An `Err` is the leftmost fault of a body that spells none.
    #[tactic(auto, using(crate::proofs::Asks::behind_is_found, crate::proofs::Asks::behind_is_only, crate::proofs::Asks::behind_is_leftmost, crate::proofs::Asks::behind_is_exact, crate::proofs::Asks::empty_is_short))]
    #[inline(always)]
    pub fn read(body: &'a [u8]) -> Result<AskView<'a>, Fault>
        // What is read is spelled by the body.
        ensures found { IfOk result (λ a. IsAsk a × (body.now ≡ spelling (ask_message a))) }
        // An ask that the body spells is read.
        ensures only { (a : Asks) → IsAsk a → body.now ≡ spelling (ask_message a) → result ≡ Ok a }
        // A body that has no reading is refused for its leftmost fault.
        ensures leftmost { (f : Faults) → result ≡ Err f → IsFaultOf asks body.now f }
        // Which ask or fault it is.
        ensures exact { Reads ask_message result (message_at asks body.now) }
    {
        let [op, rest @ ..] = body else {
            return Err(Fault::Short);
        };
        match *op {
            2 => request(rest),
            7 => read(rest),
            8 => describe(rest),
            op => otherwise(op, rest),
        }
    }
}

/// An ask of any other op. (It is a function of its own, so that a REQUEST does not clear what the others hold.)
#[tactic(auto, using(crate::proofs::Asks::behind_is_unknown))]
#[inline(never)]
fn otherwise(op: u8, bytes: &[u8]) -> Result<AskView<'_>, Fault>
    requires { (op ≢ 2) × (op ≢ 7) × (op ≢ 8) }
    ensures { ReadsAsk result (message_behind asks op bytes.now) }
{
    match op {
        1 => hello(bytes),
        3 => assume(bytes),
        4 => instantiate(bytes),
        5 => negate(bytes),
        6 => reject(bytes),
        9 => revoke(bytes),
        10 => timeout(bytes),
        11 => link(bytes),
        12 => unlink(bytes),
        13 => clear(bytes),
        14 => default(bytes),
        15 => add(bytes),
        16 => callout(bytes),
        _ => Err(Fault::UnknownOp),
    }
}

/// Nothing.
#[tactic(auto, unfolding(crate::specs::Reading::all_values, crate::specs::Reading::values_at))]
fn none(bytes: &[u8]) -> Result<(), Fault>
    ensures { Reads (λ _. []) result (all_values [] bytes.now) }
{
    field::end(bytes)
}

/// A number, and nothing else.
#[tactic(auto, unfolding(crate::specs::Reading::all_values, crate::specs::Reading::values_at))]
fn one(bytes: &[u8]) -> Result<i32, Fault>
    ensures { Reads (λ z. I32 z ∷ []) result (all_values (Signed ∷ []) bytes.now) }
{
    let (number, rest) = field::signed(bytes)?;
    field::end(rest)?;
    Ok(number)
}

/// Two numbers, and nothing else.
#[tactic(auto, unfolding(crate::specs::Reading::all_values, crate::specs::Reading::values_at))]
fn two(bytes: &[u8]) -> Result<(i32, i32), Fault>
    ensures { Reads (λ x. I32 x.0 ∷ I32 x.1 ∷ []) result (all_values (Signed ∷ Signed ∷ []) bytes.now) }
{
    let (first, rest) = field::signed(bytes)?;
    let (second, rest) = field::signed(rest)?;
    field::end(rest)?;
    Ok((first, second))
}

#[tactic(auto, unfolding(crate::specs::Reading::message_behind, crate::specs::Reading::all_values, crate::specs::Reading::values_at))]
fn hello(bytes: &[u8]) -> Result<AskView<'_>, Fault>
    ensures { ReadsAsk result (message_behind asks 1 bytes.now) }
{
    let (uid, rest) = field::word(bytes)?;
    let (gid, rest) = field::word(rest)?;
    let (thread, process, rest) = field::own_rings(rest)?;
    let (join, rest) = field::join(rest)?;
    field::end(rest)?;
    Ok(AskView::Hello(Greeting {
        uid,
        gid,
        thread,
        process,
        join: Serial::new(join),
    }))
}

#[tactic(auto, unfolding(crate::specs::Reading::message_behind, crate::specs::Reading::all_values, crate::specs::Reading::values_at))]
#[inline(always)]
fn request(bytes: &[u8]) -> Result<AskView<'_>, Fault>
    ensures { ReadsAsk result (message_behind asks 2 bytes.now) }
{
    let (typ, rest) = field::type_name(bytes)?;
    let (description, rest) = field::description(rest)?;
    let (callout, rest) = field::callout(rest)?;
    let (destination, rest) = field::signed(rest)?;
    field::end(rest)?;
    Ok(AskView::Request {
        typ,
        description,
        callout,
        destination,
    })
}

#[tactic(auto, unfolding(crate::specs::Reading::message_behind))]
fn assume(bytes: &[u8]) -> Result<AskView<'_>, Fault>
    ensures { ReadsAsk result (message_behind asks 3 bytes.now) }
{
    let key = one(bytes)?;
    Ok(AskView::Assume { key })
}

#[tactic(auto, unfolding(crate::specs::Reading::message_behind, crate::specs::Reading::all_values, crate::specs::Reading::values_at))]
fn instantiate(bytes: &[u8]) -> Result<AskView<'_>, Fault>
    ensures { ReadsAsk result (message_behind asks 4 bytes.now) }
{
    let (key, rest) = field::signed(bytes)?;
    let (payload, rest) = field::payload(rest)?;
    let (ring, rest) = field::signed(rest)?;
    field::end(rest)?;
    Ok(AskView::Instantiate { key, payload, ring })
}

#[tactic(auto, unfolding(crate::specs::Reading::message_behind, crate::specs::Reading::all_values, crate::specs::Reading::values_at))]
fn negate(bytes: &[u8]) -> Result<AskView<'_>, Fault>
    ensures { ReadsAsk result (message_behind asks 5 bytes.now) }
{
    let (key, rest) = field::signed(bytes)?;
    let (timeout, rest) = field::word(rest)?;
    let (ring, rest) = field::signed(rest)?;
    field::end(rest)?;
    Ok(AskView::Negate { key, timeout, ring })
}

#[tactic(auto, unfolding(crate::specs::Reading::message_behind, crate::specs::Reading::all_values, crate::specs::Reading::values_at))]
fn reject(bytes: &[u8]) -> Result<AskView<'_>, Fault>
    ensures { ReadsAsk result (message_behind asks 6 bytes.now) }
{
    let (key, rest) = field::signed(bytes)?;
    let (timeout, rest) = field::word(rest)?;
    let (error, rest) = field::key_error(rest)?;
    let (ring, rest) = field::signed(rest)?;
    field::end(rest)?;
    Ok(AskView::Reject {
        key,
        timeout,
        error,
        ring,
    })
}

#[tactic(auto, unfolding(crate::specs::Reading::message_behind))]
#[inline(always)]
fn read(bytes: &[u8]) -> Result<AskView<'_>, Fault>
    ensures { ReadsAsk result (message_behind asks 7 bytes.now) }
{
    let key = one(bytes)?;
    Ok(AskView::Read { key })
}

#[tactic(auto, unfolding(crate::specs::Reading::message_behind))]
#[inline(always)]
fn describe(bytes: &[u8]) -> Result<AskView<'_>, Fault>
    ensures { ReadsAsk result (message_behind asks 8 bytes.now) }
{
    let key = one(bytes)?;
    Ok(AskView::Describe { key })
}

#[tactic(auto, unfolding(crate::specs::Reading::message_behind))]
fn revoke(bytes: &[u8]) -> Result<AskView<'_>, Fault>
    ensures { ReadsAsk result (message_behind asks 9 bytes.now) }
{
    let key = one(bytes)?;
    Ok(AskView::Revoke { key })
}

#[tactic(auto, unfolding(crate::specs::Reading::message_behind, crate::specs::Reading::all_values, crate::specs::Reading::values_at))]
fn timeout(bytes: &[u8]) -> Result<AskView<'_>, Fault>
    ensures { ReadsAsk result (message_behind asks 10 bytes.now) }
{
    let (key, rest) = field::signed(bytes)?;
    let (seconds, rest) = field::word(rest)?;
    field::end(rest)?;
    Ok(AskView::Timeout { key, seconds })
}

#[tactic(auto, unfolding(crate::specs::Reading::message_behind))]
fn link(bytes: &[u8]) -> Result<AskView<'_>, Fault>
    ensures { ReadsAsk result (message_behind asks 11 bytes.now) }
{
    let (key, ring) = two(bytes)?;
    Ok(AskView::Link { key, ring })
}

#[tactic(auto, unfolding(crate::specs::Reading::message_behind))]
fn unlink(bytes: &[u8]) -> Result<AskView<'_>, Fault>
    ensures { ReadsAsk result (message_behind asks 12 bytes.now) }
{
    let (key, ring) = two(bytes)?;
    Ok(AskView::Unlink { key, ring })
}

#[tactic(auto, unfolding(crate::specs::Reading::message_behind))]
fn clear(bytes: &[u8]) -> Result<AskView<'_>, Fault>
    ensures { ReadsAsk result (message_behind asks 13 bytes.now) }
{
    let ring = one(bytes)?;
    Ok(AskView::Clear { ring })
}

#[tactic(auto, unfolding(crate::specs::Reading::message_behind))]
fn default(bytes: &[u8]) -> Result<AskView<'_>, Fault>
    ensures { ReadsAsk result (message_behind asks 14 bytes.now) }
{
    let setting = one(bytes)?;
    Ok(AskView::Default { setting })
}

#[tactic(auto, unfolding(crate::specs::Reading::message_behind, crate::specs::Reading::all_values, crate::specs::Reading::values_at))]
fn add(bytes: &[u8]) -> Result<AskView<'_>, Fault>
    ensures { ReadsAsk result (message_behind asks 15 bytes.now) }
{
    let (typ, rest) = field::type_name(bytes)?;
    let (description, rest) = field::description(rest)?;
    let (payload, rest) = field::payload(rest)?;
    let (ring, rest) = field::signed(rest)?;
    field::end(rest)?;
    Ok(AskView::Add {
        typ,
        description,
        payload,
        ring,
    })
}

#[tactic(auto, unfolding(crate::specs::Reading::message_behind))]
fn callout(bytes: &[u8]) -> Result<AskView<'_>, Fault>
    ensures { ReadsAsk result (message_behind asks 16 bytes.now) }
{
    none(bytes)?;
    Ok(AskView::Callout)
}
