//! The path of a socket, as a program finds it that changes its folder.
ghost use Rattle.std.specs.Prelude.{◌≡◌, IfOk, option_map, string_bytes};
ghost use Rattle.rk_run.specs.Paths.{from_anywhere};

use std::alloc::{AllocError, Global};
use std::path::Path;

/// The most bytes that the path of a socket may have (`unix(7)`).
const LONGEST: usize = 107;

/// The path as it is found from any folder, which for a relative one is the path below the folder in which it is named. It stays as it is if that folder
/// is not known, or if the whole would be too long for a socket. The only refusal is out of memory.
pub fn from_anywhere(alloc: Global, folder: Option<&str>, path: &str) -> Result<String, AllocError>
    ensures { IfOk result (λ s. string_bytes s ≡ from_anywhere (option_map (λ f. f.now) folder.entry) path.now) }
{
    if let Some(folder) = folder {
        let whole = Path::new(folder).join(alloc, path)?;
        if whole.as_str().len() <= LONGEST {
            return Ok(whole.into_string());
        }
    }
    String::from_str(alloc, path)
}
