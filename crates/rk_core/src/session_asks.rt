//! The asks of a session about itself: ASSUME and DEFAULT.
ghost use Rattle.std.specs.Prelude.{◌≡◌};
ghost use Rattle.rk_machine.specs.Asks.{Assumes};
ghost use Rattle.rk_machine.specs.KeyAsks.{setting_asked, Defaults};
ghost use Rattle.rk_core.specs.Finding.{answer_of};

use crate::named::serial_named;
use crate::tables::Tables;
use rk_machine::{Answer, Asker, done};
use rk_message::Reply;
use rk_names::{Errno, SessionId, Setting};

impl Tables {
    /// A handler takes on the authority of its own key; 0 lays it down (keyctl_assume_authority(3)). ENOKEY for any other key,
    /// EKEYREVOKED if it is spent.
    pub fn assume(&mut self, id: &SessionId, number: i32) -> Result<Answer, Errno>
        ensures { Assumes self.old id.now number (answer_of result) self.new }
    {
        if number < 0 {
            return Err(Errno::Enokey);
        }
        match self.auths.assume(id, serial_named(number)) {
            Ok(()) => Ok(done()),
            Err(fault) => Err(fault.errno()),
        }
    }
}

/// The setting of a number; -1 keeps the one before.
fn setting_asked(number: i32, before: Setting) -> Option<Setting>
    ensures { result ≡ setting_asked number before }
{
    if number == -1 {
        return Some(before);
    }
    Setting::from_number(u32::try_from(number).ok()?)
}

impl Tables {
    /// Sets where new keys go, and returns the setting before (keyctl_set_reqkey_keyring(3)). EINVAL for an invalid number.
    pub fn set_default(
        &mut self,
        id: &SessionId,
        asker: &Asker,
        number: i32,
    ) -> Result<Answer, Errno>
        ensures { Defaults self.old id.now asker.now number (answer_of result) self.new }
    {
        let Some(setting) = setting_asked(number, asker.setting) else {
            return Err(Errno::Einval);
        };
        self.auths.set_setting(id, setting);
        Ok(Answer::Done(Reply::Number(asker.setting.number())))
    }
}
