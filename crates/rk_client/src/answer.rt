//! What a reply says, as text.
ghost use Rattle.std.specs.Prelude.{◌≡◌, ◌++◌, IfOk, OnOk, codes, decimal};
ghost use Rattle.rk_client.specs.Printed.{printed};

use itoa::Buffer;
use rk_message::Reply;
use std::alloc::{AllocError, Global};

/// What the reply says: a number, the numbers of four rings with spaces between them, the bytes, or `errno` and the number of the error; and then
/// the end of a line, except after bytes that are to be raw. Only out of memory refuses it.
pub fn printed(alloc: Global, reply: Reply, raw: bool) -> Result<Vec<u8>, AllocError>
    ensures { IfOk result (λ v. v.items ≡ printed raw reply) }
{
    let mut text = match reply {
        Reply::Number(number) => decimal(alloc, number)?,
        Reply::Bytes(bytes) if raw => return Vec::from_slice(alloc, bytes.as_bytes()),
        Reply::Bytes(bytes) => Vec::from_slice(alloc, bytes.as_bytes())?,
        Reply::Rings {
            thread,
            process,
            session,
            user,
        } => {
            let mut text = decimal(alloc, thread)?;
            add_behind_space(&mut text, process)?;
            add_behind_space(&mut text, session)?;
            add_behind_space(&mut text, user)?;
            text
        }
        Reply::Refused(errno) => {
            let mut text = Vec::from_slice(alloc, b"errno")?;
            add_behind_space(&mut text, u32::from(errno.number()))?;
            text
        }
    };
    text.extend_from_slice(b"\n")?;
    Ok(text)
}

/// The number in decimal.
fn decimal(alloc: Global, number: u32) -> Result<Vec<u8>, AllocError>
    ensures { IfOk result (λ v. v.items ≡ decimal number) }
{
    let mut buffer = Buffer::new();
    Vec::from_slice(alloc, buffer.format(number).as_bytes())
}

/// Appends a space and the number in decimal.
fn add_behind_space(text: &mut Vec<u8>, number: u32) -> Result<(), AllocError>
    ensures { OnOk result (text.new.items ≡ text.old.items ++ codes " " ++ decimal number) }
{
    let mut buffer = Buffer::new();
    text.extend_from_slice(b" ")?;
    text.extend_from_slice(buffer.format(number).as_bytes())
}
