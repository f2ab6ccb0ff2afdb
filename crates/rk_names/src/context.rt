//! Who acts, and in whose rings.
ghost use Rattle.std.specs.Prelude.{◌≡◌};

use crate::numbers::Serial;

/// Who acts: the user and group that a session stated, and the rings that are searched for it. They
/// stand in the order of the search (request_key(2), "DESCRIPTION"; keyrings(7), "Anchoring keys").
/// The thread and the process ring may be absent. A ring that was dropped since counts as absent.
#[derive(Clone, Copy, Debug, PartialEq, Eq)]
pub struct Context {
    /// The user's number.
    pub uid: u32,
    /// The group's number.
    pub gid: u32,
    /// The ring of the thread, if it has one.
    pub thread: Option<Serial>,
    /// The ring of the process, if it has one.
    pub process: Option<Serial>,
    /// The ring of the session.
    pub session: Serial,
    /// The ring that all sessions of the user share.
    pub user: Serial,
}

/// Where a new key goes when a request names no ring. It is the first ring that the context has from
/// this one on, in the order requestor, thread, process, session, user (keyctl(2), `KEYCTL_SET_REQKEY_KEYRING`).
#[derive(Clone, Copy, Debug, PartialEq, Eq)]
pub enum Setting {
    /// As it begins. The search starts at the requestor's ring.
    Default,
    /// The search starts at the thread ring.
    Thread,
    /// It starts at the process ring.
    Process,
    /// It starts at the session ring.
    Session,
    /// The user ring, where the search ends, since there always is one.
    User,
    /// It starts at the requestor's ring, as by default.
    Requestor,
}

impl Setting {
    ghost use Rattle.std.specs.Prelude.{◌≡◌};
    ghost use Rattle.rk_names.specs.Settings.{setting_number, setting_named};

    /// Its number in keyctl(2): `KEY_REQKEY_DEFL_DEFAULT` and the like.
    pub fn number(self) -> u32
        ensures { result ≡ setting_number self }
    {
        match self {
            Setting::Default => 0,
            Setting::Thread => 1,
            Setting::Process => 2,
            Setting::Session => 3,
            Setting::User => 4,
            Setting::Requestor => 7,
        }
    }

    /// The setting with this number; `None` for any number but 0, 1, 2, 3, 4 and 7.
    pub fn from_number(number: u32) -> Option<Setting>
        ensures { result ≡ setting_named number }
    {
        match number {
            0 => Some(Setting::Default),
            1 => Some(Setting::Thread),
            2 => Some(Setting::Process),
            3 => Some(Setting::Session),
            4 => Some(Setting::User),
            7 => Some(Setting::Requestor),
            _ => None,
        }
    }
}
