//! A row: what an event and an answer are in a file.
ghost use Rattle.std.specs.Prelude.{◌≡◌, ◌≤◌, ◌++◌, length, OnOk};
ghost use Rattle.rk_frame.specs.Framing.{frame};
ghost use Rattle.rk_volumes.specs.Rows.{row_bytes};
ghost use Rattle.rk_volumes.specs.Rules.{IsTold};

use crate::numbers::word;
use std::alloc::AllocError;

/// Two bytes, a number of four bytes, and what follows them. What they say is for the kind to tell.
#[derive(Clone, Copy, Debug)]
pub(crate) struct Row<'a> {
    /// Which event or answer it is.
    pub kind: u8,
    /// How it is that.
    pub how: u8,
    /// A client, a key, or 0.
    pub number: u32,
    /// What follows them.
    pub rest: &'a [u8],
}

impl<'a> Row<'a> {
    ghost use Rattle.std.specs.Prelude.{◌≡◌, ◌<◌, length, IfSome, IfNone};
    ghost use Rattle.rk_volumes.specs.Rows.{row_bytes};
    ghost use Rattle.rk_volumes.specs.Reading.{row_by};

    /// The row that all of the bytes are; `None` for fewer than six.
    pub(crate) fn read(body: &'a [u8]) -> Option<Row<'a>>
        ensures found { IfSome result (λ r. body.now ≡ row_bytes (row_by r)) }
        ensures only { IfNone result (length body.now < 6) }
    {
        let [kind, how, rest @ ..] = body else {
            return None;
        };
        let (number, rest) = word(rest)?;
        Some(Row {
            kind: *kind,
            how: *how,
            number,
            rest,
        })
    }
}

/// Appends a row with its length before it. An `Err` is out of memory, and a part of it may have been appended.
pub(crate) fn put_row(
    out: &mut Vec<u8>,
    kind: u8,
    how: u8,
    number: u32,
    rest: &[u8],
) -> Result<(), AllocError>
    requires { length rest.now ≤ 131072 }
    ensures bytes { OnOk result (out.new.items
        ≡ out.old.items ++ frame (row_bytes (record { kind = kind; how = how; number = number; rest = rest.now }))) }
    ensures told { IsTold (record { kind = kind; how = how; number = number; rest = rest.now }) }
{
    let len = 6 + rest.len() as u32;
    out.extend_from_slice(&len.to_be_bytes())?;
    out.extend_from_slice(&[kind, how])?;
    out.extend_from_slice(&number.to_be_bytes())?;
    out.extend_from_slice(rest)
}
