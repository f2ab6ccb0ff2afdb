//! The program behind the one of a line.
ghost use Rattle.std.specs.Prelude.{◌≡◌, IfOk, map, option_map};
ghost use Rattle.rk_wrappers.specs.Wrappers.{started};
ghost use Rattle.rk_preview.specs.Behind.{known_word};

use rk_conf::{Argument, Line};
use rk_wrappers::started;
use std::alloc::{AllocError, Global};

/// The path of the program that the line starts in the end, where its own is timeout(1) or env(1) ([`rk_wrappers::started`]); macros are words that are not
/// known yet. The only refusal is out of memory.
pub fn program_behind(alloc: Global, line: &Line) -> Result<Option<&str>, AllocError>
    ensures { IfOk result (λ p. option_map (λ s. s.now) p ≡ started line.now.prog (map known_word line.now.args)) }
{
    let words = known_words(alloc, line.args.as_slice())?;
    Ok(started(line.prog.as_str(), &words))
}

/// What is known of each argument.
fn known_words<'a>(
    alloc: Global,
    arguments: &'a [Argument],
) -> Result<Vec<Option<&'a str>>, AllocError>
    ensures { IfOk result (λ v. map (option_map (λ s. s.now)) v.items ≡ map known_word arguments.now) }
{
    let mut words = Vec::new(alloc);
    for argument in arguments {
        words.push(known_word(argument))?;
    }
    Ok(words)
}

/// The word that an argument is, if it is no macro.
fn known_word(argument: &Argument) -> Option<&str>
    ensures { option_map (λ s. s.now) result ≡ known_word argument.now }
{
    match argument {
        Argument::Literal(word) => Some(word.as_str()),
        _ => None,
    }
}
