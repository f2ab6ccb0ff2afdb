//! What an argument of a line stands for.
ghost use Rattle.std.specs.Prelude.{◌≡◌};

use crate::word::Word;
use rk_names::{Description, TypeName};

/// The key whose payload an argument `%{type:description}` stands for.
#[derive(Debug, Drop)]
pub struct Wanted {
    /// The type, before the first colon.
    pub typ: TypeName,
    /// The description, after that colon.
    pub desc: Description,
}

/// What an argument of a line stands for.
#[derive(Debug, Drop)]
pub enum Argument {
    /// `%o`, the operation.
    Operation,
    /// `%k`, the serial of the key under construction.
    Key,
    /// `%t`, its type.
    Type,
    /// `%d`, its description.
    Description,
    /// `%c`, the callout.
    Callout,
    /// `%u`, the uid of the requester.
    Uid,
    /// `%g`, the gid of the requester.
    Gid,
    /// `%T`, the requester's thread ring.
    Thread,
    /// `%P`, the requester's process ring.
    Process,
    /// `%S`, the requester's session ring.
    Session,
    /// `%{type:description}`, the payload of a key that the requester can find.
    Payload(Wanted),
    /// Any other argument: itself, without the first of two leading `%`.
    Literal(Word),
}
