//! What is known of one key.
use crate::fault::KeyFault;
use rk_names::{Description, KeyError, Moment, Payload, TypeName};

/// What a key has come to (keyrings(7), "Keys"; keyctl_instantiate(3), keyctl_reject(3)).
#[derive(Debug, Drop)]
pub enum Condition {
    /// Under construction: its handler has not completed it yet.
    Building,
    /// Completed with a payload.
    Positive(Payload),
    /// Negated or rejected.
    Negative(KeyError),
}

/// What is known of a key.
#[derive(Debug, Drop)]
pub struct Key {
    /// Its type, the first half of its name (add_key(2)).
    pub typ: TypeName,
    /// Its description, the other half.
    pub description: Description,
    /// The user to whose quota it counts.
    pub owner: u32,
    /// What it has come to.
    pub condition: Condition,
    /// Marked by REVOKE (keyctl_revoke(3)). The mark stays.
    pub revoked: bool,
    /// From this moment on it is expired (keyctl_set_timeout(3)).
    pub expiry: Option<Moment>,
}

/// What a key is at a moment: a mark of revocation before an expiry, an expiry before its condition.
#[derive(Clone, Copy, Debug, PartialEq, Eq)]
pub enum Standing {
    /// Marked by REVOKE.
    Revoked,
    /// Its expiry has come.
    Expired,
    /// Its handler has not completed it, and has not ended.
    Building,
    /// Complete, with a payload that may be read.
    Positive,
    /// Negated or rejected: who asks for it gets this error.
    Negative(KeyError),
}

impl Key {
    ghost use Rattle.std.specs.Prelude.{◌≡◌, MatchResult, None, Some};
    ghost use Rattle.rk_keys.specs.declared.key.Condition.TheVariants as condition;
    ghost use Rattle.rk_keys.specs.Key.{standing_of, is_building};
    ghost use Rattle.rk_keys.specs.Known.{new_key};
    ghost use Rattle.rk_keys.specs.Faults.{use_fault};

    /// A key of this user, without expiry: under construction, or with a payload.
    pub fn new(typ: TypeName, description: Description, owner: u32, payload: Option<Payload>) -> Key
        ensures { result ≡ new_key typ description owner payload }
    {
        Key {
            typ,
            description,
            owner,
            condition: match payload {
                None => Condition::Building,
                Some(payload) => Condition::Positive(payload),
            },
            revoked: false,
            expiry: None,
        }
    }

    /// What it is at this moment.
    #[inline(always)]
    pub fn standing(&self, now: Moment) -> Standing
        ensures { result ≡ standing_of self.now now }
    {
        if self.revoked {
            return Standing::Revoked;
        }
        match (self.expiry, &self.condition) {
            (Some(end), _) if end <= now => Standing::Expired,
            (_, Condition::Building) => Standing::Building,
            (_, Condition::Positive(_)) => Standing::Positive,
            (_, Condition::Negative(error)) => Standing::Negative(*error),
        }
    }

    /// Whether its handler has not completed it yet, whatever it stands as.
    pub fn is_building(&self) -> bool
        ensures { result ≡ is_building self.now }
    {
        matches!(self.condition, Condition::Building)
    }

    /// The payload of a key that stands Positive. `Busy` if it stands Building; `Own` with its
    /// error where it stands Revoked, Expired or Negative (request_key(2), "ERRORS").
    pub fn payload(&self, now: Moment) -> Result<&Payload, KeyFault>
        ensures { MatchResult result (λ payload. (self.now.condition ≡ condition.Positive payload.now) × (use_fault self.now now ≡ None))
            (λ fault. use_fault self.now now ≡ Some fault) }
    {
        if let Some(error) = self.standing(now).over() {
            return Err(KeyFault::Own(error));
        }
        match &self.condition {
            Condition::Building => Err(KeyFault::Busy),
            Condition::Positive(payload) => Ok(payload),
            Condition::Negative(error) => Err(KeyFault::Own(*error)),
        }
    }
}

impl Standing {
    ghost use Rattle.std.specs.Prelude.{◌≡◌};
    ghost use Rattle.rk_keys.specs.Key.{error_of, over_error};

    /// The error of a key that stands Revoked, Expired or Negative (request_key(2), "ERRORS").
    pub fn error(self) -> Option<KeyError>
        ensures { result ≡ error_of self }
    {
        match self {
            Standing::Revoked => Some(KeyError::Revoked),
            Standing::Expired => Some(KeyError::Expired),
            Standing::Building | Standing::Positive => None,
            Standing::Negative(error) => Some(error),
        }
    }

    /// The error of a key that can't be changed any more: it stands Revoked or Expired.
    pub fn over(self) -> Option<KeyError>
        ensures { result ≡ over_error self }
    {
        match self {
            Standing::Revoked => Some(KeyError::Revoked),
            Standing::Expired => Some(KeyError::Expired),
            Standing::Building | Standing::Positive | Standing::Negative(_) => None,
        }
    }
}
