//! From word to word, up to the program.
ghost use Rattle.std.specs.Prelude.{◌≡◌, map, option_map};
ghost use Rattle.rk_wrappers.specs.Wrappers.{started, walked};

use crate::wrapper::{Step, Wrapper, read_word, wrapper_at};

/// The path of the program that a command starts in the end, where its own path is that of timeout(1) or env(1), in /usr/bin or /bin, and these are the words
/// after it. A word that is not known yet is `None`. `None` if its own program is another one, if the program behind it can't be told, or has no absolute path.
pub fn started<'a>(path: &str, words: &[Option<&'a str>]) -> Option<&'a str>
    ensures { option_map (λ s. s.now) result ≡ started path.now (map (option_map (λ s. s.now)) words.now) }
{
    match wrapper_at(path) {
        Some(wrapper) => walked(wrapper, words),
        None => None,
    }
}

/// The same behind the words that were read before.
fn walked<'a>(wrapper: Wrapper, words: &[Option<&'a str>]) -> Option<&'a str>
    ensures { option_map (λ s. s.now) result ≡ walked wrapper (map (option_map (λ s. s.now)) words.now) }
{
    match words {
        [] => None,
        [word, others @ ..] => match read_word(wrapper, *word) {
            Step::On(next) => walked(next, others),
            Step::Found => *word,
            Step::Lost => None,
        },
    }
}
