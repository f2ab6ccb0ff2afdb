//! Options among words.
ghost use Rattle.std.specs.Prelude.{◌≡◌, ◌<◌, [], Some, None, IfSome, MatchOption, map, option_map, length, string_bytes};
ghost use Rattle.rk_options.specs.Options.{is_among, led_by, options_of, taken};
ghost use Rattle.rk_options.specs.Values.{number_up_to};

use rk_text::number;

/// Words that are to say options, and the names of those that are flags.
#[derive(Clone, Copy, Debug)]
pub struct Options<'a> {
    /// Names and values, as `--uid 5` or `--uid=5`.
    pub words: &'a [String],
    /// The names of the options that have no value.
    pub flags: &'a [&'a str],
}

/// An option, and the words after it.
#[derive(Clone, Copy)]
struct Found<'a> {
    /// Its name, with the dashes.
    name: &'a str,
    /// Its value, empty for a flag.
    value: &'a str,
    /// The words that are not read yet.
    rest: &'a [String],
}

/// Whether the word is one of these names.
fn is_among(names: &[&str], word: &str) -> bool
    ensures { result ≡ is_among (map (λ s. s.now) names.now) word.now }
{
    match names {
        [] => false,
        [name, others @ ..] => word == *name || is_among(others, word),
    }
}

/// The first option of the words: `Some(None)` for no words, `None` if its value is missing.
fn first_option<'a>(words: &'a [String], flags: &[&str]) -> Option<Option<Found<'a>>>
    ensures option { MatchOption result (options_of (map (λ s. s.now) flags.now) (map string_bytes words.now) ≡ None)
        (λ first. MatchOption first (options_of (map (λ s. s.now) flags.now) (map string_bytes words.now) ≡ Some [])
        (λ f. options_of (map (λ s. s.now) flags.now) (map string_bytes words.now)
        ≡ led_by (record { name = f.name.now; value = f.value.now }) (options_of (map (λ s. s.now) flags.now) (map string_bytes f.rest.now)))) }
    ensures shorter { IfSome result (λ first. IfSome first (λ f. length f.rest.now < length words.now)) }
{
    let Some((word, rest)) = words.split_first() else {
        return Some(None);
    };
    let name = word.as_str();
    if let Some((name, value)) = name.split_once('=') {
        return Some(Some(Found { name, value, rest }));
    }
    if is_among(flags, name) {
        return Some(Some(Found {
            name,
            value: "",
            rest,
        }));
    }
    let (value, rest) = rest.split_first()?;
    Some(Some(Found {
        name,
        value: value.as_str(),
        rest,
    }))
}

/// The value that is found of a name with this option too, where `found` was found before it; `None` if it is the second of that name.
fn found_with<'a>(found: Option<&'a str>, option: Found<'a>, name: &str) -> Option<Option<&'a str>>
    ensures { option_map (option_map (λ s. s.now)) result
        ≡ taken name.now (option_map (λ s. s.now) found.entry) (record { name = option.entry.name.now; value = option.entry.value.now }) }
{
    if option.name == name {
        return match found {
            None => Some(Some(option.value)),
            Some(_) => None,
        };
    }
    Some(found)
}

impl<'a> Options<'a> {
    ghost use Rattle.std.specs.Prelude.{◌≡◌, map, option_map};
    ghost use Rattle.rk_options.specs.Options.{all_named, is_among, value_in};
    ghost use Rattle.rk_options.specs.Values.{number_in, number_up_to};
    ghost use Rattle.rk_options.specs.Said.{said_by};

    /// The value of the option of this name, nothing for a flag that is there: `Some(None)` if it isn't there, `None` if it is there twice, or the
    /// words are no options.
    pub fn value_of(&self, name: &str) -> Option<Option<&'a str>>
        ensures { option_map (option_map (λ s. s.now)) result ≡ value_in name.now (said_by self.now) }
    {
        let mut rest = self.words;
        let mut found = None;
        'each: while let Some(option) = first_option(rest, self.flags)? {
            found = found_with(found, option, name)?;
            rest = option.rest;
        }
        Some(found)
    }

    /// Whether the words are options, and each has one of these names.
    pub fn are_known(&self, names: &[&str]) -> bool
        ensures { result ≡ all_named (is_among (map (λ s. s.now) names.now)) (said_by self.now) }
    {
        let mut rest = self.words;
        'each: while let Some(first) = first_option(rest, self.flags) {
            let Some(option) = first else {
                return true;
            };
            if !is_among(names, option.name) {
                return false;
            }
            rest = option.rest;
        }
        false
    }

    /// The number that the option of this name gives, in decimal digits up to the limit, or the default if it isn't there. `None` if it is there
    /// twice, says no such number, or the words are no options.
    pub fn number_or(&self, name: &str, limit: u32, default: u32) -> Option<u32>
        ensures { result ≡ number_in name.now default (number_up_to limit) (said_by self.now) }
    {
        match self.value_of(name)? {
            Some(text) => up_to(text, limit),
            None => Some(default),
        }
    }
}

/// A number up to a limit.
fn up_to(text: &str, limit: u32) -> Option<u32>
    ensures { result ≡ number_up_to limit text.now }
{
    let number = number(text.as_bytes(), u64::from(limit))?;
    Some(number as u32)
}
