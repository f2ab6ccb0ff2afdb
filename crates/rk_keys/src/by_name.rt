//! The names with one hash.
ghost use Rattle.std.specs.Prelude.{◌≡◌, ◌++◌, ◌∷◌, [], None, OnOk, OnErr, MatchOption, filter, not, find as list_find};
ghost use Rattle.std.specs.Option.{option_copied};
ghost use Rattle.rk_keys.specs.Buckets.{is_of, number_in, first_changed, one_more, with_one_fewer, is_empty, IsFirst};

use crate::named::Named;
use rk_names::NameNo;
use rk_table::Exchange;
use std::alloc::{AllocError, Global};
use std::marker::Model;

/// The names with one hash: one, but for names whose hashes are equal by chance.
#[derive(Drop)]
pub struct Bucket {
    /// In no order.
    names: Vec<Named>,
}

impl Model for Bucket {
    ghost use Rattle.std.specs.Prelude.{List};
    ghost use Rattle.std.specs.Coded.{coded_list};
    ghost use Rattle.rk_keys.specs.declared.named.Named.{Named};
    ghost use Rattle.rk_keys.specs.contracts.named.Named as named;

    ghost Value = { List Named };

    ghost coded = { coded_list named.the_row.coded };

    ghost view = { λ b. b.names.items };
}

impl Bucket {
    /// No names. It takes no memory.
    pub fn new(alloc: Global) -> Bucket
        ensures { result ≡ [] }
    {
        Bucket {
            names: Vec::new(alloc),
        }
    }

    /// Puts in a name. An `Err` changes nothing.
    pub fn push(&mut self, named: Named) -> Result<(), AllocError>
        ensures ok { OnOk result (self.new ≡ self.old ++ named ∷ []) }
        ensures err { OnErr result (self.new ≡ self.old) }
    {
        self.names.reserve_exact(1)?;
        self.names.push_reserved(named);
        Ok(())
    }

    /// What is kept of a name; `None` if it is not among these.
    #[inline(always)]
    pub fn find(&self, typ: &[u8], description: &[u8]) -> Option<&Named>
        ensures { option_copied result ≡ list_find (is_of typ.now description.now) self.now }
    {
        let place = place_of(&self.names, typ, description)?;
        Some(&self.names[place])
    }

    /// Counts one key more of a name, and answers its number; `None` if the name is not among these, and then nothing changes. A count of
    /// 4,294,967,295 stays.
    #[inline(always)]
    fn count_in(&mut self, typ: &[u8], description: &[u8]) -> Option<NameNo>
        ensures number { result ≡ number_in (list_find (is_of typ.now description.now) self.old) }
        ensures names { self.new ≡ first_changed (is_of typ.now description.now) one_more self.old }
    {
        let place = place_of(&self.names, typ, description)?;
        let named = &mut self.names[place];
        named.keys = named.keys.saturating_add(1);
        Some(named.number)
    }

    /// Counts one key fewer of a name, and answers whether no name is left. A name that no key has any more goes.
    #[inline(always)]
    fn count_out(&mut self, typ: &[u8], description: &[u8]) -> bool
        ensures names { self.new ≡ with_one_fewer typ.now description.now self.old }
        ensures left { result ≡ is_empty self.new }
    {
        match place_of(&self.names, typ, description) {
            Some(place) if self.names[place].keys > 1 => self.names[place].keys -= 1,
            _ => take_name_out(&mut self.names, typ, description),
        }
        self.names.is_empty()
    }
}

/// Where a name stands; `None` if it is not there.
#[inline(always)]
fn place_of(names: &[Named], typ: &[u8], description: &[u8]) -> Option<usize>
    ensures { MatchOption result (list_find (is_of typ.now description.now) names.now ≡ None) (IsFirst (is_of typ.now description.now) names.now) }
{
    for place in 0..names.len() {
        if names[place].is(typ, description) {
            return Some(place);
        }
    }
    None
}

/// One key more has the name. It answers the number of the name, if it is there.
#[derive(Drop)]
pub struct CountIn<'a> {
    /// The name's type, by which its entry is found.
    pub typ: &'a [u8],
    /// The name's description, likewise.
    pub description: &'a [u8],
}

impl<'a> Exchange<Bucket> for CountIn<'a> {
    type Answer = Option<NameNo>;

    ghost use Rattle.std.specs.Prelude.{find as list_find};
    ghost use Rattle.rk_keys.specs.Buckets.{is_of, number_in, first_changed, one_more};

    ghost changed = { λ c b. first_changed (is_of c.typ.now c.description.now) one_more b };

    ghost answer = { λ c b. number_in (list_find (is_of c.typ.now c.description.now) b) };

    fn exchange(self, bucket: &mut Bucket) -> Option<NameNo> {
        bucket.count_in(self.typ, self.description)
    }
}

/// One key fewer has the name. It answers whether no name is left.
#[derive(Drop)]
pub struct CountOut<'a> {
    /// The name's type, by which its entry is found.
    pub typ: &'a [u8],
    /// The name's description, likewise.
    pub description: &'a [u8],
}

impl<'a> Exchange<Bucket> for CountOut<'a> {
    type Answer = bool;

    ghost use Rattle.rk_keys.specs.Buckets.{with_one_fewer, is_empty};

    ghost changed = { λ c b. with_one_fewer c.typ.now c.description.now b };

    ghost answer = { λ c b. is_empty (with_one_fewer c.typ.now c.description.now b) };

    fn exchange(self, bucket: &mut Bucket) -> bool {
        bucket.count_out(self.typ, self.description)
    }
}

fn take_name_out(names: &mut Vec<Named>, typ: &[u8], description: &[u8])
    ensures { names.new.items ≡ filter (λ n. not (is_of typ.now description.now n)) names.old.items }
{
    names.retain(|named| !named.is(typ, description));
}
