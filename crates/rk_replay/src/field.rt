//! The first of the fields of a line: what it says, and the fields after it.
ghost use Rattle.std.specs.Prelude.{◌≡◌, ◌≤◌, Some, IfOk};
ghost use Rattle.std.specs.Str.{bytes_eq};
ghost use Rattle.rk_replay.specs.Text.{fields_of};
ghost use Rattle.rk_replay.specs.Values.{moment_of, seconds_of, client_of, key_of, status_of, bytes_of};
ghost use Rattle.rk_replay.specs.Fields.{Gives, first_as, alone};
ghost use Rattle.rk_replay.specs.declared.field.Misread.TheVariants.{NoMemory};

use crate::digits::decoded;
use crate::numbers::number;
use hex::FromHexError;
use rk_served::Bytes;
use rk_text::{Space, cut_field, skip_space};
use std::alloc::{AllocError, Global};

/// Why fields say nothing.
#[derive(Clone, Copy, Debug, PartialEq, Eq)]
pub enum Misread {
    /// They are not those of a line of a script.
    NotALine,
    /// An allocation failed.
    NoMemory,
}

impl From<AllocError> for Misread {
    ghost from_gives = { λ _ e. e ≡ NoMemory };

    fn from(_error: AllocError) -> Misread {
        Misread::NoMemory
    }
}

/// Any field.
pub fn word(fields: &[u8]) -> Result<(&[u8], &[u8]), Misread>
    ensures { Gives (λ x. (x.0.now, fields_of x.1.now)) result (first_as Some (fields_of fields.now)) }
{
    cut_field(fields, Space::Blank).ok_or(Misread::NotALine)
}

/// No field is left.
pub fn end(fields: &[u8]) -> Result<(), Misread>
    ensures { Gives (λ x. x) result (alone tt (fields_of fields.now)) }
{
    match cut_field(fields, Space::Blank) {
        None => Ok(()),
        Some(_) => Err(Misread::NotALine),
    }
}

/// What a field says as a moment, as its number.
pub fn moment(field: &[u8]) -> Result<u64, Misread>
    ensures { Gives (λ n. n) result (moment_of field.now) }
{
    if field.len() > 20 {
        return Err(Misread::NotALine);
    }
    match number(field, u64::MAX) {
        Some(number) => Ok(number),
        None => Err(Misread::NotALine),
    }
}

/// A number of seconds.
pub fn seconds(fields: &[u8]) -> Result<(u32, &[u8]), Misread>
    ensures { Gives (λ x. (x.0, fields_of x.1.now)) result (first_as seconds_of (fields_of fields.now)) }
{
    let (field, rest) = word(fields)?;
    if field.len() > 20 {
        return Err(Misread::NotALine);
    }
    match number(field, 4_294_967_295) {
        Some(number) => Ok((number as u32, rest)),
        None => Err(Misread::NotALine),
    }
}

/// The number of a client.
pub fn client(fields: &[u8]) -> Result<(u32, &[u8]), Misread>
    ensures { Gives (λ x. (x.0, fields_of x.1.now)) result (first_as client_of (fields_of fields.now)) }
{
    let (field, rest) = word(fields)?;
    match number(field, 4_294_967_295) {
        Some(number) => Ok((number as u32, rest)),
        None => Err(Misread::NotALine),
    }
}

/// The serial of a key, as its number.
pub fn key(fields: &[u8]) -> Result<(u32, &[u8]), Misread>
    ensures range { IfOk result (λ x. (1 ≤ x.0) × (x.0 ≤ 2147483647)) }
    ensures value { Gives (λ x. (x.0, fields_of x.1.now)) result (first_as key_of (fields_of fields.now)) }
{
    let (field, rest) = word(fields)?;
    match number(field, 2_147_483_647) {
        Some(0) | None => Err(Misread::NotALine),
        Some(number) => Ok((number as u32, rest)),
    }
}

/// The status of a handler that exited.
pub fn status(fields: &[u8]) -> Result<(u8, &[u8]), Misread>
    ensures { Gives (λ x. (x.0, fields_of x.1.now)) result (first_as status_of (fields_of fields.now)) }
{
    let (field, rest) = word(fields)?;
    match number(field, 255) {
        Some(number) => Ok((number as u8, rest)),
        None => Err(Misread::NotALine),
    }
}

/// Bytes, in hexadecimal digits. They stand last on their line: so all that is left is read as digits, and no space is looked for before that fails.
pub fn bytes(alloc: Global, fields: &[u8]) -> Result<(Bytes, &[u8]), Misread>
    ensures { Gives (λ x. (x.0, fields_of x.1.now)) result (first_as bytes_of (fields_of fields.now)) }
{
    let digits = skip_space(fields, Space::Blank);
    match decoded(alloc, digits)? {
        Some(bytes) if !digits.is_empty() => Ok((Bytes::new(bytes), &digits[digits.len()..])),
        _ => spaced_bytes(alloc, fields),
    }
}

/// Bytes before a space, or none at all.
#[cold]
#[inline(never)]
fn spaced_bytes(alloc: Global, fields: &[u8]) -> Result<(Bytes, &[u8]), Misread>
    ensures { Gives (λ x. (x.0, fields_of x.1.now)) result (first_as bytes_of (fields_of fields.now)) }
{
    let (field, rest) = word(fields)?;
    if field.is_empty() {
        return Err(Misread::NotALine);
    }
    match hex::decode(alloc, field) {
        Ok(bytes) => Ok((Bytes::new(bytes), rest)),
        Err(FromHexError::OutOfMemory) => Err(Misread::NoMemory),
        Err(_) => Err(Misread::NotALine),
    }
}
