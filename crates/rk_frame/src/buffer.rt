//! Bytes of which the first have been handed out, and the move that gives their room back.

ghost use Rattle.std.specs.Prelude.{◌≡◌, ◌<◌, ◌≤◌, ◌+◌, ◌-◌, ◌↔◌, drop, vec_len, vec_capacity, IsTrue};
ghost use Rattle.rk_frame.specs.Move.{IsWorthMoving};

/// Takes the first `count` bytes away. Each byte after them is moved once, and none if `count`
/// is 0.
pub fn drop_front(bytes: &mut Vec<u8>, count: usize)
    requires { count ≤ vec_len bytes.old }
    ensures items { bytes.new.items ≡ drop count bytes.old.items }
    ensures capacity { vec_capacity bytes.new ≡ vec_capacity bytes.old }
{
    if count > 0 {
        bytes.copy_within(count.., 0);
        bytes.truncate(bytes.len() - count);
    }
}

/// Whether `more` bytes find no room after the others, but do once the first `taken` are away, and
/// those are at least half of all. So each byte that moves is paid by one that was handed out.
pub fn is_worth_moving(bytes: &Vec<u8>, taken: usize, more: usize) -> bool
    requires { taken ≤ vec_len bytes.now }
    ensures { IsTrue result ↔ IsWorthMoving (vec_len bytes.now) (vec_capacity bytes.now) taken more }
{
    let held = bytes.len() - taken;
    let behind = bytes.capacity() - bytes.len();
    behind < more && held <= taken && more <= bytes.capacity() - held
}
