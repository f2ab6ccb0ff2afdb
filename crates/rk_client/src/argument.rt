//! What one argument says.
ghost use Rattle.std.specs.Prelude.{◌≡◌, Some, None, IfOk};
ghost use Rattle.rk_names.specs.Rules.{type_fault, description_fault, payload_fault, callout_fault};
ghost use Rattle.rk_message.specs.declared.shape.FieldKind.TheVariants as field;
ghost use Rattle.rk_message.specs.Wire.{U32, I32, Blob, Maybe};
ghost use Rattle.rk_message.specs.Asks.{error_number};
ghost use Rattle.rk_client.specs.Arguments.{role_of, roles, serial_said, IsSaid};

use crate::fault::ArgumentFault;
use rk_message::FieldKind;
use rk_names::{Callout, Description, KeyError, Payload, TypeName};
use rk_text::number;

/// A word that stands for a number.
#[derive(Clone, Copy, Debug, PartialEq, Eq)]
pub struct Role {
    /// The word on the command line.
    pub name: &'static str,
    /// The number on the wire.
    pub number: i32,
}

/// The word for a key: the authority that is assumed (keyctl(2), "Special key IDs").
static KEYS: [Role; 1] = [Role {
    name: "auth",
    number: -7,
}];

/// The words for a ring: none, one of the acting context by its role, or the requestor's (keyctl(2), "Special key IDs").
static RINGS: [Role; 6] = [
    Role {
        name: "none",
        number: 0,
    },
    Role {
        name: "thread",
        number: -1,
    },
    Role {
        name: "process",
        number: -2,
    },
    Role {
        name: "session",
        number: -3,
    },
    Role {
        name: "user",
        number: -4,
    },
    Role {
        name: "requestor",
        number: -8,
    },
];

/// The words for a setting of the default ring (keyctl_set_reqkey_keyring(3)); no number stands for one.
static SETTINGS: [Role; 7] = [
    Role {
        name: "keep",
        number: -1,
    },
    Role {
        name: "default",
        number: 0,
    },
    Role {
        name: "thread",
        number: 1,
    },
    Role {
        name: "process",
        number: 2,
    },
    Role {
        name: "session",
        number: 3,
    },
    Role {
        name: "user",
        number: 4,
    },
    Role {
        name: "requestor",
        number: 7,
    },
];

/// The number that a word stands for, if it is one of these.
fn named(table: &[Role], bytes: &[u8]) -> Option<i32>
    ensures { result ≡ role_of (roles table.now) bytes.now }
{
    match table {
        [] => None,
        [role, others @ ..] => {
            if role.name.as_bytes() == bytes {
                Some(role.number)
            } else {
                named(others, bytes)
            }
        }
    }
}

/// A number that can be a serial, or 0.
fn serial(bytes: &[u8]) -> Option<i32>
    ensures { result ≡ serial_said bytes.now }
{
    let number = number(bytes, 2_147_483_647)?;
    Some(number as i32)
}

/// A key: a serial, 0, or its word.
#[tactic(auto, unfolding(crate::specs::Arguments::value_said))]
pub fn key(bytes: &[u8]) -> Result<i32, ArgumentFault>
    ensures { IsSaid I32 field.Key bytes.now result }
{
    match named(&KEYS, bytes).or_else(|| serial(bytes)) {
        Some(number) => Ok(number),
        None => Err(ArgumentFault::Bad(FieldKind::Key)),
    }
}

/// A ring: a serial, 0, or its word.
#[tactic(auto, unfolding(crate::specs::Arguments::value_said))]
pub fn ring(bytes: &[u8]) -> Result<i32, ArgumentFault>
    ensures { IsSaid I32 field.Ring bytes.now result }
{
    match named(&RINGS, bytes).or_else(|| serial(bytes)) {
        Some(number) => Ok(number),
        None => Err(ArgumentFault::Bad(FieldKind::Ring)),
    }
}

/// A setting, by its word.
#[tactic(auto, unfolding(crate::specs::Arguments::value_said))]
pub fn setting(bytes: &[u8]) -> Result<i32, ArgumentFault>
    ensures { IsSaid I32 field.Setting bytes.now result }
{
    match named(&SETTINGS, bytes) {
        Some(number) => Ok(number),
        None => Err(ArgumentFault::Bad(FieldKind::Setting)),
    }
}

/// A number of seconds, of four bytes.
#[tactic(auto, unfolding(crate::specs::Arguments::value_said))]
pub fn seconds(bytes: &[u8]) -> Result<u32, ArgumentFault>
    ensures { IsSaid U32 field.Seconds bytes.now result }
{
    match number(bytes, 4_294_967_295) {
        Some(number) => Ok(number as u32),
        None => Err(ArgumentFault::Bad(FieldKind::Seconds)),
    }
}

/// The error of a key, by its number.
#[tactic(auto, unfolding(crate::specs::Arguments::value_said))]
pub fn error(bytes: &[u8]) -> Result<KeyError, ArgumentFault>
    ensures { IsSaid (λ e. U32 (error_number e)) field.Error bytes.now result }
{
    let Some(number) = number(bytes, 4_294_967_295) else {
        return Err(ArgumentFault::Bad(FieldKind::Error));
    };
    match KeyError::from_number(number as u32) {
        Some(error) => Ok(error),
        None => Err(ArgumentFault::Bad(FieldKind::Error)),
    }
}

/// The bytes, if they can be a type.
#[tactic(auto, unfolding(crate::specs::Arguments::value_said))]
pub fn typ(bytes: &[u8]) -> Result<&[u8], ArgumentFault>
    ensures said { IsSaid (λ s. Blob s.now) field.Type bytes.now result }
    ensures rule { IfOk result (λ s. type_fault s.now ≡ None) }
{
    match TypeName::fault(bytes) {
        Some(_) => Err(ArgumentFault::Bad(FieldKind::Type)),
        None => Ok(bytes),
    }
}

/// The bytes, if they can be a description.
#[tactic(auto, unfolding(crate::specs::Arguments::value_said))]
pub fn description(bytes: &[u8]) -> Result<&[u8], ArgumentFault>
    ensures said { IsSaid (λ s. Blob s.now) field.Description bytes.now result }
    ensures rule { IfOk result (λ s. description_fault s.now ≡ None) }
{
    match Description::fault(bytes) {
        Some(_) => Err(ArgumentFault::Bad(FieldKind::Description)),
        None => Ok(bytes),
    }
}

/// The bytes, if they can be a payload.
#[tactic(auto, unfolding(crate::specs::Arguments::value_said))]
pub fn payload(bytes: &[u8]) -> Result<&[u8], ArgumentFault>
    ensures said { IsSaid (λ s. Blob s.now) field.Payload bytes.now result }
    ensures rule { IfOk result (λ s. payload_fault s.now ≡ None) }
{
    match Payload::fault(bytes) {
        Some(_) => Err(ArgumentFault::Bad(FieldKind::Payload)),
        None => Ok(bytes),
    }
}

/// The bytes, if they can be a callout.
#[tactic(auto, unfolding(crate::specs::Arguments::value_said))]
pub fn callout(bytes: &[u8]) -> Result<&[u8], ArgumentFault>
    ensures said { IsSaid (λ s. Maybe (Some s.now)) field.Callout bytes.now result }
    ensures rule { IfOk result (λ s. callout_fault s.now ≡ None) }
{
    match Callout::fault(bytes) {
        Some(_) => Err(ArgumentFault::Bad(FieldKind::Callout)),
        None => Ok(bytes),
    }
}
