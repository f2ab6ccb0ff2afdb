//! Search: the first hit of a name in the rings of a context, or the errors of the keys that it passes by.
ghost use Rattle.std.specs.Prelude.{◌≡◌, ◌||◌, ◌++◌, ℕ, false, List, Option, option_to_list, unwrap_or, find};
ghost use Rattle.std.specs.Option.{option_map_or};
ghost use Rattle.rk_names.specs.declared.errors.KeyError.TheVariants as error;
ghost use Rattle.rk_rings.specs.Numbered.{IsMatch};
ghost use Rattle.rk_rings.specs.Places.{rings_of};
ghost use Rattle.rk_machine.specs.World.{World};
ghost use Rattle.rk_machine.specs.Search.{Query, same_error, errors};
ghost use Rattle.rk_core.specs.Sought.{matched, IsSole, IsNumberOf, IsSought};

use crate::tables::Tables;
use rk_keys::{HashedName, Keys, Standing};
use rk_names::{Context, KeyError, Moment, NameNo, Serial};
use rk_rings::Rings;

/// What a search comes to (request_key(2)).
#[derive(Clone, Copy, Debug)]
pub enum Sought {
    /// The first hit stands Positive: it may be used.
    Positive(Serial),
    /// The first hit stands Building: it may be waited for.
    Building(Serial),
    /// There is no hit.
    Missed(Missed),
}

/// The errors of the keys that a search passes by, each the first in the order of errors (request-key.rst).
#[derive(Clone, Copy, Debug)]
pub struct Missed {
    /// That of the negative keys. It blocks a construction.
    pub block: Option<KeyError>,
    /// That of the revoked and expired keys.
    pub stale: Option<KeyError>,
}

/// The key of the name in a ring, and how it stands.
#[derive(Clone, Copy, Debug)]
struct Match {
    /// The one key of that name in the ring.
    key: Serial,
    /// How it stands at the moment of the search.
    standing: Standing,
}

// ---- no hit

impl Missed {
    /// The error if there is no hit: that of the negative keys before that of the others.
    pub fn error(&self) -> KeyError
        ensures { result ≡ unwrap_or self.now.block (unwrap_or self.now.stale error.NoKey) }
    {
        match (self.block, self.stale) {
            (Some(error), _) | (None, Some(error)) => error,
            (None, None) => KeyError::NoKey,
        }
    }

    /// What the search comes to with what was found in one more ring.
    #[inline(always)]
    fn with(self, found: &Option<Match>) -> Sought
        ensures { (w : World) (q : Query) (rings : List ℕ) (ring : Option ℕ) → IsSought w q rings (Sought.Missed self) → IsSole w q ring found.now
            → IsSought w q (rings ++ option_to_list ring) result }
    {
        let Some(found) = found else {
            return Sought::Missed(self);
        };
        match found.standing {
            Standing::Positive => Sought::Positive(found.key),
            Standing::Building => Sought::Building(found.key),
            Standing::Negative(error) => Sought::Missed(Missed {
                block: first_error(self.block, error),
                stale: self.stale,
            }),
            Standing::Revoked => Sought::Missed(Missed {
                block: self.block,
                stale: first_error(self.stale, KeyError::Revoked),
            }),
            Standing::Expired => Sought::Missed(Missed {
                block: self.block,
                stale: first_error(self.stale, KeyError::Expired),
            }),
        }
    }
}

/// The first of these two in the order of errors.
fn first_error(before: Option<KeyError>, error: KeyError) -> Option<KeyError>
    ensures { result ≡ find (λ e. option_map_or (same_error e) before false || same_error e error) errors }
{
    Some(match (before, error) {
        (Some(KeyError::Revoked), _) | (_, KeyError::Revoked) => KeyError::Revoked,
        (Some(KeyError::Expired), _) | (_, KeyError::Expired) => KeyError::Expired,
        (Some(KeyError::Rejected), _) | (_, KeyError::Rejected) => KeyError::Rejected,
        (Some(KeyError::NoKey) | None, KeyError::NoKey) => KeyError::NoKey,
    })
}

// ---- ring after ring

/// A search that is under way: the keys and rings in which it looks, for which name, and when.
#[derive(Clone, Copy)]
struct Search<'a> {
    /// How each key stands.
    keys: &'a Keys,
    /// Which keys are linked in which ring.
    rings: &'a Rings,
    /// The number of the name.
    name: NameNo,
    /// When it is made.
    moment: Moment,
}

impl Search<'_> {
    /// The key of the name in a ring, if one is given and has it.
    #[inline(always)]
    fn match_in(&self, ring: &Option<Serial>) -> Option<Match>
        ensures { (found : Option ℕ) × IsMatch self.now.rings.now self.now.name ring.now found × (result ≡ matched self.now.keys.now self.now.moment found) }
    {
        let key = match ring {
            Some(ring) => self.rings.find_in(*ring, self.name)?,
            None => return None,
        };
        let standing = self.keys.fact(key)?.standing(self.moment);
        Some(Match { key, standing })
    }

    /// Looks in the next ring, if one is given, unless one before it had a hit.
    #[inline(always)]
    fn further(&self, before: Sought, ring: &Option<Serial>) -> Sought
        ensures { (w : World) (q : Query) (rings : List ℕ) → self.now.moment ≡ q.now → IsNumberOf w q self.now.keys.now self.now.rings.now self.now.name
            → IsSought w q rings before → IsSought w q (rings ++ option_to_list ring.now) result }
    {
        match before {
            Sought::Missed(missed) => missed.with(&self.match_in(ring)),
            Sought::Positive(_) | Sought::Building(_) => before,
        }
    }
}

impl Tables {
    /// Looks for the key of that name in one ring of the context after the other, up to the first hit. It takes no memory, and looks up the
    /// name once.
    #[inline(always)]
    pub fn search(&self, context: &Context, name: &HashedName<'_>, now: Moment) -> Sought
        ensures { IsSought self.now (record { context = context.now; typ = name.now.typ; description = name.now.description; now = now })
            (rings_of context.now) result }
    {
        let sought = Sought::Missed(Missed {
            block: None,
            stale: None,
        });
        let Some(name) = self.keys.name(name) else {
            return sought;
        };
        let search = Search {
            keys: &self.keys,
            rings: &self.rings,
            name,
            moment: now,
        };
        let sought = search.further(sought, &context.thread);
        let sought = search.further(sought, &context.process);
        let sought = search.further(sought, &Some(context.session));
        search.further(sought, &Some(context.user))
    }
}
