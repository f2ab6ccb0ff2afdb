//! The ask of an op with its arguments.
ghost use Rattle.std.specs.Prelude.{◌≡◌, ◌≢◌, ◌∷◌, [], Some, length, map, MatchResult};
ghost use Rattle.rk_message.specs.Wire.{I32};
ghost use Rattle.rk_message.specs.declared.shape.Op.TheVariants as op;
ghost use Rattle.rk_message.specs.declared.shape.FieldKind.TheVariants as field;
ghost use Rattle.rk_client.specs.declared.fault.ArgumentFault.TheVariants.{Count};
ghost use Rattle.rk_client.specs.Arguments.{AsksOrNot, Gives};

use crate::argument;
use crate::fault::ArgumentFault;
use rk_message::{Ask, Op};
use rk_names::{Callout, Description, Payload, TypeName};
use std::alloc::Global;

/// The ask of this op with these arguments, which stand in the order of its fields, but for the callout: it comes last, and may be left out.
/// HELLO takes no arguments and is never made here.
///
/// Refusals: `Count` if the op takes more or fewer arguments; else `Bad` with the kind of the first field, in the order of the ask's fields, of which its
/// argument is none; `NoMemory`, only for arguments that are an ask.
pub fn ask_of(alloc: Global, op: Op, arguments: &[&[u8]]) -> Result<Ask, ArgumentFault>
    ensures { AsksOrNot op (map (λ s. s.now) arguments.now) result }
{
    match op {
        Op::Hello => Err(ArgumentFault::Count),
        Op::Request => request(alloc, arguments),
        Op::Assume => Ok(Ask::Assume {
            key: key_alone(arguments)?,
        }),
        Op::Instantiate => instantiate(alloc, arguments),
        Op::Negate => negate(arguments),
        Op::Reject => reject(arguments),
        Op::Read => Ok(Ask::Read {
            key: key_alone(arguments)?,
        }),
        Op::Describe => Ok(Ask::Describe {
            key: key_alone(arguments)?,
        }),
        Op::Revoke => Ok(Ask::Revoke {
            key: key_alone(arguments)?,
        }),
        Op::Timeout => timeout(arguments),
        Op::Link => {
            let (key, ring) = key_and_ring(arguments)?;
            Ok(Ask::Link { key, ring })
        }
        Op::Unlink => {
            let (key, ring) = key_and_ring(arguments)?;
            Ok(Ask::Unlink { key, ring })
        }
        Op::Clear => Ok(Ask::Clear {
            ring: ring_alone(arguments)?,
        }),
        Op::Default => Ok(Ask::Default {
            setting: setting_alone(arguments)?,
        }),
        Op::Add => add(alloc, arguments),
        Op::Callout => callout(arguments),
    }
}

/// `request TYPE DESCRIPTION RING [CALLOUT]`.
fn request(alloc: Global, arguments: &[&[u8]]) -> Result<Ask, ArgumentFault>
    ensures { AsksOrNot op.Request (map (λ s. s.now) arguments.now) result }
{
    if arguments.len() == 4 {
        let (typ, description, ring, callout) = four(arguments)?;
        return telling_request(alloc, typ, description, ring, callout);
    }
    let (typ, description, ring) = three(arguments)?;
    plain_request(alloc, typ, description, ring)
}

/// A request that tells the handler nothing.
#[tactic(auto, unfolding(crate::specs::Arguments::fields_said, crate::specs::Arguments::first_unsaid))]
fn plain_request(
    alloc: Global,
    typ: &[u8],
    description: &[u8],
    ring: &[u8],
) -> Result<Ask, ArgumentFault>
    ensures { AsksOrNot op.Request (typ.now ∷ description.now ∷ ring.now ∷ []) result }
{
    let typ = argument::typ(typ)?;
    let description = argument::description(description)?;
    let destination = argument::ring(ring)?;
    Ok(Ask::Request {
        typ: TypeName::from_checked(typ),
        description: Description::from_checked(alloc, description)?,
        callout: None,
        destination,
    })
}

/// A request with a callout.
#[tactic(auto, unfolding(crate::specs::Arguments::fields_said, crate::specs::Arguments::first_unsaid))]
fn telling_request(
    alloc: Global,
    typ: &[u8],
    description: &[u8],
    ring: &[u8],
    callout: &[u8],
) -> Result<Ask, ArgumentFault>
    ensures { AsksOrNot op.Request (typ.now ∷ description.now ∷ ring.now ∷ callout.now ∷ []) result }
{
    let typ = argument::typ(typ)?;
    let description = argument::description(description)?;
    let callout = argument::callout(callout)?;
    let destination = argument::ring(ring)?;
    Ok(Ask::Request {
        typ: TypeName::from_checked(typ),
        description: Description::from_checked(alloc, description)?,
        callout: Some(Callout::from_checked(alloc, callout)?),
        destination,
    })
}

/// `instantiate KEY PAYLOAD RING`.
#[tactic(auto, unfolding(crate::specs::Arguments::fields_said, crate::specs::Arguments::first_unsaid))]
fn instantiate(alloc: Global, arguments: &[&[u8]]) -> Result<Ask, ArgumentFault>
    ensures { AsksOrNot op.Instantiate (map (λ s. s.now) arguments.now) result }
{
    let (key, payload, ring) = three(arguments)?;
    let key = argument::key(key)?;
    let payload = argument::payload(payload)?;
    let ring = argument::ring(ring)?;
    Ok(Ask::Instantiate {
        key,
        payload: Payload::from_checked(Vec::from_slice(alloc, payload)?),
        ring,
    })
}

/// `negate KEY SECONDS RING`.
#[tactic(auto, unfolding(crate::specs::Arguments::fields_said, crate::specs::Arguments::first_unsaid))]
fn negate(arguments: &[&[u8]]) -> Result<Ask, ArgumentFault>
    ensures { AsksOrNot op.Negate (map (λ s. s.now) arguments.now) result }
{
    let (key, timeout, ring) = three(arguments)?;
    Ok(Ask::Negate {
        key: argument::key(key)?,
        timeout: argument::seconds(timeout)?,
        ring: argument::ring(ring)?,
    })
}

/// `reject KEY SECONDS ERROR RING`.
#[tactic(auto, unfolding(crate::specs::Arguments::fields_said, crate::specs::Arguments::first_unsaid))]
fn reject(arguments: &[&[u8]]) -> Result<Ask, ArgumentFault>
    ensures { AsksOrNot op.Reject (map (λ s. s.now) arguments.now) result }
{
    let (key, timeout, error, ring) = four(arguments)?;
    Ok(Ask::Reject {
        key: argument::key(key)?,
        timeout: argument::seconds(timeout)?,
        error: argument::error(error)?,
        ring: argument::ring(ring)?,
    })
}

/// `timeout KEY SECONDS`.
#[tactic(auto, unfolding(crate::specs::Arguments::fields_said, crate::specs::Arguments::first_unsaid))]
fn timeout(arguments: &[&[u8]]) -> Result<Ask, ArgumentFault>
    ensures { AsksOrNot op.Timeout (map (λ s. s.now) arguments.now) result }
{
    let (key, seconds) = two(arguments)?;
    Ok(Ask::Timeout {
        key: argument::key(key)?,
        seconds: argument::seconds(seconds)?,
    })
}

/// `add TYPE DESCRIPTION PAYLOAD RING`.
#[tactic(auto, unfolding(crate::specs::Arguments::fields_said, crate::specs::Arguments::first_unsaid))]
fn add(alloc: Global, arguments: &[&[u8]]) -> Result<Ask, ArgumentFault>
    ensures { AsksOrNot op.Add (map (λ s. s.now) arguments.now) result }
{
    let (typ, description, payload, ring) = four(arguments)?;
    let (typ, description) = (argument::typ(typ)?, argument::description(description)?);
    let payload = argument::payload(payload)?;
    let ring = argument::ring(ring)?;
    Ok(Ask::Add {
        typ: TypeName::from_checked(typ),
        description: Description::from_checked(alloc, description)?,
        payload: Payload::from_checked(Vec::from_slice(alloc, payload)?),
        ring,
    })
}

/// The key that is the only argument.
#[tactic(auto, unfolding(crate::specs::Arguments::fields_said, crate::specs::Arguments::first_unsaid))]
fn key_alone(arguments: &[&[u8]]) -> Result<i32, ArgumentFault>
    ensures { Gives (λ z. I32 z ∷ []) (field.Key ∷ []) (map Some (map (λ s. s.now) arguments.now)) result }
{
    argument::key(one(arguments)?)
}

/// The ring that is the only argument.
#[tactic(auto, unfolding(crate::specs::Arguments::fields_said, crate::specs::Arguments::first_unsaid))]
fn ring_alone(arguments: &[&[u8]]) -> Result<i32, ArgumentFault>
    ensures { Gives (λ z. I32 z ∷ []) (field.Ring ∷ []) (map Some (map (λ s. s.now) arguments.now)) result }
{
    argument::ring(one(arguments)?)
}

/// The setting that is the only argument.
#[tactic(auto, unfolding(crate::specs::Arguments::fields_said, crate::specs::Arguments::first_unsaid))]
fn setting_alone(arguments: &[&[u8]]) -> Result<i32, ArgumentFault>
    ensures { Gives (λ z. I32 z ∷ []) (field.Setting ∷ []) (map Some (map (λ s. s.now) arguments.now)) result }
{
    argument::setting(one(arguments)?)
}

/// A key and a ring, and no more.
#[tactic(auto, unfolding(crate::specs::Arguments::fields_said, crate::specs::Arguments::first_unsaid))]
fn key_and_ring(arguments: &[&[u8]]) -> Result<(i32, i32), ArgumentFault>
    ensures { Gives (λ x. I32 x.0 ∷ I32 x.1 ∷ []) (field.Key ∷ field.Ring ∷ []) (map Some (map (λ s. s.now) arguments.now)) result }
{
    let (key, ring) = two(arguments)?;
    Ok((argument::key(key)?, argument::ring(ring)?))
}

/// No argument.
#[tactic(auto, unfolding(crate::specs::Arguments::fields_said, crate::specs::Arguments::first_unsaid))]
fn callout(arguments: &[&[u8]]) -> Result<Ask, ArgumentFault>
    ensures { AsksOrNot op.Callout (map (λ s. s.now) arguments.now) result }
{
    match arguments {
        [] => Ok(Ask::Callout),
        _ => Err(ArgumentFault::Count),
    }
}

/// The only argument.
fn one<'a>(arguments: &[&'a [u8]]) -> Result<&'a [u8], ArgumentFault>
    ensures { MatchResult result (λ a. map (λ s. s.now) arguments.now ≡ a.now ∷ []) (λ e. (e ≡ Count) × (length arguments.now ≢ 1)) }
{
    match arguments {
        [first] => Ok(first),
        _ => Err(ArgumentFault::Count),
    }
}

/// The two arguments.
fn two<'a>(arguments: &[&'a [u8]]) -> Result<(&'a [u8], &'a [u8]), ArgumentFault>
    ensures { MatchResult result (λ x. map (λ s. s.now) arguments.now ≡ x.0.now ∷ x.1.now ∷ []) (λ e. (e ≡ Count) × (length arguments.now ≢ 2)) }
{
    match arguments {
        [first, second] => Ok((first, second)),
        _ => Err(ArgumentFault::Count),
    }
}

/// The three arguments.
fn three<'a>(arguments: &[&'a [u8]]) -> Result<(&'a [u8], &'a [u8], &'a [u8]), ArgumentFault>
    ensures { MatchResult result (λ x. map (λ s. s.now) arguments.now ≡ x.0.now ∷ x.1.now ∷ x.2.now ∷ []) (λ e. (e ≡ Count) × (length arguments.now ≢ 3)) }
{
    match arguments {
        [first, second, third] => Ok((first, second, third)),
        _ => Err(ArgumentFault::Count),
    }
}

/// The four arguments.
fn four<'a>(
    arguments: &[&'a [u8]],
) -> Result<(&'a [u8], &'a [u8], &'a [u8], &'a [u8]), ArgumentFault>
    ensures { MatchResult result (λ x. map (λ s. s.now) arguments.now ≡ x.0.now ∷ x.1.now ∷ x.2.now ∷ x.3.now ∷ [])
        (λ e. (e ≡ Count) × (length arguments.now ≢ 4)) }
{
    match arguments {
        [first, second, third, fourth] => Ok((first, second, third, fourth)),
        _ => Err(ArgumentFault::Count),
    }
}
