//! What may be preloaded.
ghost use Rattle.std.specs.Prelude.{◌≡◌, not};
ghost use Rattle.std.specs.List.{list_all};
ghost use Rattle.rk_variables.specs.Library.{is_library, is_rooted, stands_between};

/// Whether the path can stand in `LD_PRELOAD` (`ld.so(8)`): it begins with `/`, and has no space and no colon, which stand between paths there.
pub fn is_library(path: &str) -> bool
    ensures { result ≡ is_library path.now }
{
    is_rooted(path.as_bytes()) && is_one(path.as_bytes())
}

/// Whether the path begins with `/`.
fn is_rooted(path: &[u8]) -> bool
    ensures { result ≡ is_rooted path.now }
{
    match path {
        [first, ..] => *first == b'/',
        [] => false,
    }
}

/// Whether nothing stands in it that stands between paths.
fn is_one(path: &[u8]) -> bool
    ensures { result ≡ list_all (λ b. not (stands_between b)) path.now }
{
    path.iter().all(|byte| !(*byte == b' ' || *byte == b':'))
}
