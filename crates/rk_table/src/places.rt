//! Places of entries whose keys rise: the search by halves, and an insertion if there is room.
ghost use Rattle.std.specs.Prelude.{◌≡◌, ◌≤◌, ◌<◌, IfOk, IfErr, IfSome, vec_len, vec_capacity};
ghost use Rattle.std.specs.List.{insert};
ghost use Rattle.rk_table.specs.Entries.{KeysRise, IsAt, IsGapFor};

/// How many entries are few: among them the search by halves is as fast as a look by share, which divides.
const FEW: usize = 16;

/// Where the key stands, or else where it would. It looks first where the key stands if none is missing between the first one and it: numbers are mostly given
/// out one after another. Among many entries it looks next where the key stands if all are equally far apart, as the rings of users are that have as many keys.
/// If it is not there, it looks at as many entries as their number can be halved.
pub(crate) fn place_of<V>(entries: &[(u32, V)], key: u32) -> Result<usize, usize>
    requires rising { KeysRise entries.now }
    ensures found { IfOk result (IsAt entries.now key) }
    ensures absent { IfErr result (IsGapFor entries.now key) }
{
    if let Some(place) = place_in_a_row(entries, key) {
        return Ok(place);
    }
    if entries.len() > FEW {
        if let Some(place) = place_by_share(entries, key) {
            return Ok(place);
        }
    }
    entries.binary_search_by_key(&key, |entry| entry.0)
}

/// Where the key stands if no key is missing between the first one and it.
fn place_in_a_row<V>(entries: &[(u32, V)], key: u32) -> Option<usize>
    ensures { IfSome result (IsAt entries.now key) }
{
    let first = entries.first()?.0;
    place_if_there(entries, key, key.wrapping_sub(first) as usize)
}

/// Where the key stands if all keys are equally far apart.
fn place_by_share<V>(entries: &[(u32, V)], key: u32) -> Option<usize>
    ensures { IfSome result (IsAt entries.now key) }
{
    let first = entries.first()?.0;
    let last = entries.last()?.0;
    let all = u64::from(last.checked_sub(first)?);
    let before = u64::from(key.checked_sub(first)?);
    let place = before
        .wrapping_mul((entries.len() - 1) as u64)
        .checked_div(all)?;
    place_if_there(entries, key, place as usize)
}

/// This place, if the key stands there.
fn place_if_there<V>(entries: &[(u32, V)], key: u32, place: usize) -> Option<usize>
    ensures { IfSome result (λ found. IsAt entries.now key found × (found ≡ place)) }
{
    if entries.get(place)?.0 == key {
        Some(place)
    } else {
        None
    }
}

/// The same, for keys that mostly come rising: one look tells that a key is past all others.
pub(crate) fn place_of_late<V>(entries: &[(u32, V)], key: u32) -> Result<usize, usize>
    requires rising { KeysRise entries.now }
    ensures found { IfOk result (IsAt entries.now key) }
    ensures absent { IfErr result (IsGapFor entries.now key) }
{
    let Some(last) = entries.last() else {
        return Err(0);
    };
    if last.0 < key {
        return Err(entries.len());
    }
    place_of(entries, key)
}

/// Puts in an item at a place, and moves those from there on up by one. It takes no memory.
pub(crate) fn put_at<T>(items: &mut Vec<T>, place: usize, item: T)
    requires within { place ≤ vec_len items.old }
    requires room { vec_len items.old < vec_capacity items.old }
    ensures items { items.new.items ≡ insert items.old.items place item }
    ensures capacity { vec_capacity items.new ≡ vec_capacity items.old }
{
    match items.insert(place, item) {
        Ok(()) => {}
        Err(_) => unreachable!(),
    }
}
