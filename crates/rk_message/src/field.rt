//! One field at the front of the bytes: its value and the bytes after it, or its fault.

ghost use Rattle.std.specs.Prelude.{◌≡◌, ◌≤◌, ◌==◌, List, ℕ, length, Ok, Err, Some, None, IfOk, if◌then◌else◌};
ghost use Rattle.std.specs.Int.{w16, w32};
ghost use Rattle.rk_names.specs.Numbers.{errno_number};
ghost use Rattle.rk_message.specs.declared.fault.Fault.TheVariants.{Trailing as trailing};
ghost use Rattle.rk_message.specs.Wire.{U8, U32, I32, Blob, Maybe, Signed};
ghost use Rattle.rk_message.specs.Table.{any, flags, join, error, type_name, description, payload, callout, callout_rule, reply_block, errno};
ghost use Rattle.rk_message.specs.Reading.{Reads, number_at, block_at, checked_at, value_at};
ghost use Rattle.rk_message.specs.Asks.{flag_bits, error_number};

use crate::fault::Fault;
use crate::reply::ReplyBytes;
use bytes::Buf;
use rk_names::{CalloutView, DescriptionView, Errno, KeyError, PayloadView, TypeView};

const INVALID: Fault = Fault::Bad(Errno::Einval);

/// Nothing is left after the last field.
pub fn end(rest: &[u8]) -> Result<(), Fault>
    ensures { result ≡ (if length rest.now == 0 then Ok tt else Err trailing) }
{
    if rest.is_empty() {
        Ok(())
    } else {
        Err(Fault::Trailing)
    }
}

/// Any number of four bytes.
fn number(bytes: &[u8]) -> Result<(u32, &[u8]), Fault>
    ensures { Reads (λ x. (x.0, x.1.now)) result (number_at w32 bytes.now) }
{
    if bytes.len() < 4 {
        return Err(Fault::Short);
    }
    let mut rest = bytes;
    let number = rest.get_u32();
    Ok((number, rest))
}

/// The bytes that their length of two bytes says.
#[tactic(auto, unfolding(crate::specs::Reading::block_at))]
fn block(bytes: &[u8]) -> Result<(&[u8], &[u8]), Fault>
    ensures { Reads (λ x. (x.0.now, x.1.now)) result (block_at bytes.now) }
{
    if bytes.len() < 2 {
        return Err(Fault::Short);
    }
    let mut rest = bytes;
    let len = rest.get_u16() as usize;
    if rest.len() < len {
        return Err(Fault::Short);
    }
    Ok(rest.split_at(len))
}

/// A number without a rule.
#[tactic(auto, unfolding(crate::specs::Reading::value_at))]
pub fn word(bytes: &[u8]) -> Result<(u32, &[u8]), Fault>
    ensures { Reads (λ x. (U32 x.0, x.1.now)) result (value_at any bytes.now) }
{
    number(bytes)
}

/// A number with a sign, in two's complement.
#[tactic(auto, unfolding(crate::specs::Reading::value_at))]
pub fn signed(bytes: &[u8]) -> Result<(i32, &[u8]), Fault>
    ensures { Reads (λ x. (I32 x.0, x.1.now)) result (value_at Signed bytes.now) }
{
    if bytes.len() < 4 {
        return Err(Fault::Short);
    }
    let mut rest = bytes;
    let number = rest.get_i32();
    Ok((number, rest))
}

/// Whether there is a thread ring (bit 0) and a process ring (bit 1).
#[tactic(auto, unfolding(crate::specs::Reading::value_at))]
pub fn own_rings(bytes: &[u8]) -> Result<(bool, bool, &[u8]), Fault>
    ensures { Reads (λ x. (U8 (flag_bits x.0 x.1), x.2.now)) result (value_at flags bytes.now) }
{
    match bytes {
        [] => Err(Fault::Short),
        [0, rest @ ..] => Ok((false, false, rest)),
        [1, rest @ ..] => Ok((true, false, rest)),
        [2, rest @ ..] => Ok((false, true, rest)),
        [3, rest @ ..] => Ok((true, true, rest)),
        [_, ..] => Err(INVALID),
    }
}

/// The session ring to join: 0, or a number that can be a serial.
#[tactic(auto, unfolding(crate::specs::Reading::value_at))]
pub fn join(bytes: &[u8]) -> Result<(u32, &[u8]), Fault>
    ensures value { Reads (λ x. (U32 x.0, x.1.now)) result (value_at join bytes.now) }
    ensures range { IfOk result (λ x. x.0 ≤ 2147483647) }
{
    let (number, rest) = number(bytes)?;
    if number > 2_147_483_647 {
        return Err(INVALID);
    }
    Ok((number, rest))
}

/// The error of a key, by its errno's number.
#[tactic(auto, unfolding(crate::specs::Reading::value_at))]
pub fn key_error(bytes: &[u8]) -> Result<(KeyError, &[u8]), Fault>
    ensures { Reads (λ x. (U32 (error_number x.0), x.1.now)) result (value_at error bytes.now) }
{
    let (number, rest) = number(bytes)?;
    match KeyError::from_number(number) {
        Some(error) => Ok((error, rest)),
        None => Err(INVALID),
    }
}

/// A type that keeps its rule, still borrowed.
#[tactic(auto, unfolding(crate::specs::Reading::value_at, crate::specs::Reading::checked_at))]
pub fn type_name(bytes: &[u8]) -> Result<(TypeView<'_>, &[u8]), Fault>
    ensures { Reads (λ x. (Blob x.0, x.1.now)) result (value_at type_name bytes.now) }
{
    let (name, rest) = block(bytes)?;
    match TypeView::new(name) {
        Ok(name) => Ok((name, rest)),
        Err(fault) => Err(Fault::Bad(fault.errno())),
    }
}

/// A description that keeps its rule, still borrowed.
#[tactic(auto, unfolding(crate::specs::Reading::value_at, crate::specs::Reading::checked_at))]
pub fn description(bytes: &[u8]) -> Result<(DescriptionView<'_>, &[u8]), Fault>
    ensures { Reads (λ x. (Blob x.0, x.1.now)) result (value_at description bytes.now) }
{
    let (name, rest) = block(bytes)?;
    match DescriptionView::new(name) {
        Ok(name) => Ok((name, rest)),
        Err(fault) => Err(Fault::Bad(fault.errno())),
    }
}

/// A payload that keeps its rule, still borrowed.
#[tactic(auto, unfolding(crate::specs::Reading::value_at, crate::specs::Reading::checked_at))]
pub fn payload(bytes: &[u8]) -> Result<(PayloadView<'_>, &[u8]), Fault>
    ensures { Reads (λ x. (Blob x.0, x.1.now)) result (value_at payload bytes.now) }
{
    let (payload, rest) = block(bytes)?;
    match PayloadView::new(payload) {
        Ok(payload) => Ok((payload, rest)),
        Err(fault) => Err(Fault::Bad(fault.errno())),
    }
}

/// The text of a callout that keeps its rule, still borrowed.
#[tactic(auto, unfolding(crate::specs::Reading::checked_at))]
#[inline(always)]
fn callout_text(bytes: &[u8]) -> Result<(CalloutView<'_>, &[u8]), Fault>
    ensures { Reads (λ x. (x.0, x.1.now)) result (checked_at callout_rule bytes.now) }
{
    let (text, rest) = block(bytes)?;
    match CalloutView::new(text) {
        Ok(text) => Ok((text, rest)),
        Err(fault) => Err(Fault::Bad(fault.errno())),
    }
}

/// A callout after a byte 1, or a byte 0 for none; still borrowed.
#[tactic(auto, unfolding(crate::specs::Reading::value_at))]
#[inline(always)]
pub fn callout(bytes: &[u8]) -> Result<(Option<CalloutView<'_>>, &[u8]), Fault>
    ensures { Reads (λ x. (Maybe x.0, x.1.now)) result (value_at callout bytes.now) }
{
    match bytes {
        [] => Err(Fault::Short),
        [0, rest @ ..] => Ok((None, rest)),
        [1, rest @ ..] => {
            let (text, rest) = callout_text(rest)?;
            Ok((Some(text), rest))
        }
        [_, ..] => Err(INVALID),
    }
}

/// The bytes of a reply, still borrowed.
#[tactic(auto, unfolding(crate::specs::Reading::value_at, crate::specs::Reading::checked_at))]
pub fn reply_block(bytes: &[u8]) -> Result<(&[u8], &[u8]), Fault>
    ensures value { Reads (λ x. (Blob x.0.now, x.1.now)) result (value_at reply_block bytes.now) }
    ensures len { IfOk result (λ x. length x.0.now ≤ 65533) }
{
    let (bytes, rest) = block(bytes)?;
    if bytes.len() > ReplyBytes::MAX_LEN {
        return Err(INVALID);
    }
    Ok((bytes, rest))
}

/// An error by its number.
#[tactic(auto, unfolding(crate::specs::Reading::value_at))]
pub fn errno(bytes: &[u8]) -> Result<(Errno, &[u8]), Fault>
    ensures { Reads (λ x. (U8 (errno_number x.0), x.1.now)) result (value_at errno bytes.now) }
{
    let Some((number, rest)) = bytes.split_first() else {
        return Err(Fault::Short);
    };
    match Errno::from_number(*number) {
        Some(errno) => Ok((errno, rest)),
        None => Err(INVALID),
    }
}
