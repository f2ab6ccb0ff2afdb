//! The asks on keys: READ, DESCRIBE, CALLOUT, REVOKE, TIMEOUT.
ghost use Rattle.std.specs.Prelude.{◌≡◌, ◌≤◌, Err, Ok, [], ◌∷◌, length, IfOk, IsOk, OnSome, MatchOption, MatchResult, option_map};
ghost use Rattle.std.specs.Bool.{MatchBool};
ghost use Rattle.rk_names.specs.Numbers.{key_errno};
ghost use Rattle.rk_keys.specs.Key.{error_of, is_building, is_revoked, key_passes, standing_of};
ghost use Rattle.rk_keys.specs.Known.{marked, timed};
ghost use Rattle.rk_machine.specs.Allowed.{first_of, refused_if};
ghost use Rattle.rk_machine.specs.KeyAsks.{description_of, payload_by, state_word, over_refusal, with_key_changed};
ghost use Rattle.rk_machine.specs.KeyAsks.{TellsCallout, ReadsKey, Reads, Describes, Revokes, TimesOut};
ghost use Rattle.rk_core.specs.Finding.{answer_of, Finds};

use crate::named::serial_of;
use crate::tables::Tables;
use arrayvec::ArrayVec;
use itoa::Buffer;
use rk_keys::{Key, Standing};
use rk_machine::{Answer, Asker, done};
use rk_message::{Reply, ReplyBytes};
use rk_names::{Errno, Moment, Payload, Serial, SessionId};
use std::alloc::{AllocError, Global};

/// Bytes as a reply, or out of memory where there was none for them.
fn replied(bytes: Result<ReplyBytes, AllocError>) -> Result<Answer, Errno>
    ensures { MatchResult bytes (λ b. result ≡ Ok (Answer.Done (Reply.Bytes b))) (λ _. result ≡ Err Errno.Enomem) }
{
    match bytes {
        Ok(bytes) => Ok(Answer::Done(Reply::Bytes(bytes))),
        Err(_) => Err(Errno::Enomem),
    }
}

// ---- what is returned about a key

fn state_word(standing: Standing) -> &'static str
    ensures { result.now ≡ state_word standing }
{
    match standing {
        Standing::Revoked => "revoked",
        Standing::Expired => "expired",
        Standing::Building => "building",
        Standing::Positive => "valid",
        Standing::Negative(_) => "negative",
    }
}

/// The most bytes between a type and a description: a uid of ten digits, a word of eight letters, and three semicolons.
const BETWEEN: usize = 21;

/// type;uid;state;description (keyctl_describe(3)). Its memory is taken at once.
fn description(alloc: Global, fact: &Key, now: Moment) -> Result<Vec<u8>, AllocError>
    ensures bytes { IfOk result (λ bytes. bytes.items ≡ description_of now fact.now) }
    ensures short { IfOk result (λ bytes. length bytes.items ≤ 65533) }
{
    let (typ, description) = (fact.typ.as_bytes(), fact.description.as_bytes());
    let mut buffer = Buffer::new();
    let mut bytes = Vec::with_capacity(alloc, typ.len() + BETWEEN + description.len())?;
    bytes.extend_from_slice(typ)?;
    bytes.push(b';')?;
    bytes.extend_from_slice(buffer.format(fact.owner).as_bytes())?;
    bytes.push(b';')?;
    bytes.extend_from_slice(state_word(fact.standing(now)).as_bytes())?;
    bytes.push(b';')?;
    bytes.extend_from_slice(description)?;
    Ok(bytes)
}

/// The most bytes of a description that is put together without memory of its own.
const SHORT: usize = 96;

/// The same in an empty buffer, which takes no memory; `None` if it does not fit there.
fn describe_in(bytes: &mut ArrayVec<u8, SHORT>, fact: &Key, now: Moment) -> Option<()>
    requires { bytes.old.items ≡ [] }
    ensures { OnSome result (bytes.new.items ≡ description_of now fact.now) }
{
    let mut buffer = Buffer::new();
    bytes.try_extend_from_slice(fact.typ.as_bytes()).ok()?;
    bytes.try_push(b';').ok()?;
    bytes
        .try_extend_from_slice(buffer.format(fact.owner).as_bytes())
        .ok()?;
    bytes.try_push(b';').ok()?;
    bytes
        .try_extend_from_slice(state_word(fact.standing(now)).as_bytes())
        .ok()?;
    bytes.try_push(b';').ok()?;
    bytes
        .try_extend_from_slice(fact.description.as_bytes())
        .ok()
}

/// The payload of a key that stands Positive. Its own error where it stands Revoked, Expired or Negative, and EBUSY if it stands Building.
fn payload(fact: &Key, now: Moment) -> Result<&Payload, Errno>
    ensures { let refusal = first_of (option_map key_errno (error_of (standing_of fact.now now)) ∷ refused_if (is_building fact.now) Errno.Ebusy ∷ []) in
        Finds refusal (λ p. payload_by fact.now.condition ≡ p.now) result }
{
    match fact.payload(now) {
        Ok(payload) => Ok(payload),
        Err(fault) => Err(fault.errno()),
    }
}

// ---- CALLOUT, READ, DESCRIBE

impl Tables {
    /// The callout of the authority that is assumed (keyctl_read(3), `KEY_SPEC_REQKEY_AUTH_KEY`). ENOKEY if none is.
    pub fn callout(&self, id: &SessionId) -> Result<Answer, Errno>
        ensures { TellsCallout self.now id.now (answer_of result) self.now }
    {
        match self.auths.assumed_authority(id) {
            None => Err(Errno::Enokey),
            Some(authority) => {
                replied(ReplyBytes::from_checked(self.alloc, authority.callout.as_bytes()))
            }
        }
    }

    fn read_key(&self, now: Moment, asker: &Asker, number: i32) -> Result<Answer, Errno>
        ensures { ReadsKey self.now now asker.now number (answer_of result) self.now }
    {
        let key = serial_of(number)?;
        let fact = self.possessed(asker, key)?;
        replied(ReplyBytes::of_payload(self.alloc, payload(fact, now)?))
    }

    /// The payload of a key, or for -7 the callout (keyctl_read(3)). EINVAL, ENOKEY, EACCES if it is not possessed; the
    /// key's own error; EBUSY if it is under construction.
    pub fn read(
        &self,
        now: Moment,
        id: &SessionId,
        asker: &Asker,
        number: i32,
    ) -> Result<Answer, Errno>
        ensures { Reads self.now now id.now asker.now number (answer_of result) self.now }
    {
        if number == -7 {
            self.callout(id)
        } else {
            self.read_key(now, asker, number)
        }
    }

    /// What a key is (keyctl_describe(3)). EINVAL, ENOKEY, EACCES if it is not possessed.
    pub fn describe(&mut self, now: Moment, asker: &Asker, number: i32) -> Result<Answer, Errno>
        ensures { Describes self.old now asker.now number (answer_of result) self.new }
    {
        let key = serial_of(number)?;
        let fact = self.possessed(asker, key)?;
        let mut short = ArrayVec::new();
        if describe_in(&mut short, fact, now).is_some() {
            return replied(self.last_text.reply(self.alloc, &short));
        }
        match description(self.alloc, fact, now) {
            Ok(bytes) => replied(self.last_text.reply(self.alloc, &bytes)),
            Err(_) => Err(Errno::Enomem),
        }
    }
}

// ---- REVOKE, TIMEOUT

impl Tables {
    fn mark(&mut self, key: Serial) -> Result<(), Errno>
        ensures { MatchBool (key_passes self.old.keys key is_revoked) ((result ≡ Err Errno.Ekeyrevoked) × (self.new ≡ self.old))
            (IsOk result × (self.new ≡ with_key_changed key marked self.old)) }
    {
        match self.keys.revoke(key) {
            Ok(()) => Ok(()),
            Err(fault) => Err(fault.errno()),
        }
    }

    /// Marks a key as revoked (keyctl_revoke(3)). EINVAL, ENOKEY, EACCES if it is not possessed; EKEYREVOKED if it is marked already.
    pub fn revoke(&mut self, asker: &Asker, number: i32) -> Result<Answer, Errno>
        ensures { Revokes self.old asker.now number (answer_of result) self.new }
    {
        let key = self.possessed_key(asker, number)?;
        self.mark(key)?;
        Ok(done())
    }

    fn set_expiry(&mut self, now: Moment, key: Serial, seconds: u32) -> Result<(), Errno>
        ensures { MatchOption (over_refusal self.old key now) (IsOk result × (self.new ≡ with_key_changed key (timed now seconds) self.old))
            (λ e. (result ≡ Err e) × (self.new ≡ self.old)) }
    {
        match self.keys.set_expiry(key, now, seconds) {
            Ok(()) => Ok(()),
            Err(fault) => Err(fault.errno()),
        }
    }

    /// Lets a key expire so many seconds on, or never for 0 (keyctl_set_timeout(3)). EINVAL, ENOKEY, EACCES if it is not
    /// possessed; its own error where it stands revoked or expired.
    pub fn set_timeout(
        &mut self,
        now: Moment,
        asker: &Asker,
        number: i32,
        seconds: u32,
    ) -> Result<Answer, Errno>
        ensures { TimesOut self.old now asker.now number seconds (answer_of result) self.new }
    {
        let key = self.possessed_key(asker, number)?;
        self.set_expiry(now, key, seconds)?;
        Ok(done())
    }
}
