//! What a REQUEST wants, and who wants it.
ghost use Rattle.std.specs.Prelude.{◌≡◌, IfOk};

use rk_keys::HashedName;
use rk_machine::Asker;
use rk_names::{Callout, CalloutView, Description, SessionId, TypeName};
use std::alloc::{AllocError, Global};

/// Who requests a key.
#[derive(Debug, Drop)]
pub struct Requester<'a> {
    /// The session that is to wait.
    pub id: &'a SessionId,
    /// Whose context is searched.
    pub asker: &'a Asker,
}

/// What a REQUEST wants, in the session's own bytes.
#[derive(Debug, Drop)]
pub struct Wanted<'a> {
    /// The type and the description of the key, to be equal byte by byte.
    pub name: HashedName<'a>,
    /// What its handler gets. Without it no handler is started.
    pub callout: Option<CalloutView<'a>>,
}

/// What the handler of a key gets of its name, and its callout.
#[derive(Debug, Drop)]
pub struct Names {
    /// The type of the key.
    pub typ: TypeName,
    /// Its description.
    pub description: Description,
    /// What its handler gets.
    pub callout: Callout,
}

impl Names {
    /// Copies of the name that is wanted and of this callout. An `Err` is out of memory.
    pub fn of(
        alloc: Global,
        wanted: &Wanted<'_>,
        callout: &CalloutView<'_>,
    ) -> Result<Names, AllocError>
        ensures { IfOk result (λ names. (names.typ ≡ wanted.now.name.typ) × (names.description ≡ wanted.now.name.description)
            × (names.callout ≡ callout.now)) }
    {
        Ok(Names {
            typ: wanted.name.owned_typ(),
            description: wanted.name.owned_description(alloc)?,
            callout: callout.to_owned(alloc)?,
        })
    }
}
