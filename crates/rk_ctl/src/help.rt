//! Help, for words that ask for it, and what is wrong with words that ask for nothing.
ghost use Rattle.std.specs.Prelude.{◌≡◌, ◌≤◌, ◌⊎◌, true, false, map, string_bytes};
ghost use Rattle.rk_ctl.specs.Calls.{asks_help, asks_in_front, asks_of, is_help, is_help_alone};
ghost use Rattle.rk_ctl.specs.Said.{op_and_more};
ghost use Rattle.rk_ctl.specs.Outcome.{HasTold};

use crate::call::{Call, is_alone, op_and_more};
use crate::manual::{fault_of_arguments, fault_of_words, meaning};
use crate::misuse::{Misplaced, unnoticed};
use crate::telling::{misused, no_memory, tell};
use clap::Error;
use clap::error::ErrorKind;
use rk_client::ArgumentFault;
use rk_message::FieldKind;
use std::alloc::Global;
use std::fmt::Display;
use std::io::Write;

/// What words are that have no ask.
#[derive(Clone, Copy)]
pub enum Misuse<'c, 'a> {
    /// They are no call.
    Words,
    /// They are a call, whose arguments are not those of its op.
    Arguments(&'c Call<'a>, ArgumentFault),
    /// They are a call, of which a file stands for an argument that it can't be.
    Place(Misplaced),
    /// They are a call that names no daemon, and the ask would be written to a terminal.
    Lost,
}

/// What is wrong with a call that would write its ask to a terminal.
const NOWHERE: &str =
    "neither '--socket <PATH>' nor REQKEYD_SOCKET says where the daemon is, and standard output is a terminal";

/// Says what was asked for, or what is wrong with the words.
pub fn explain<W: Write, E: Write>(
    alloc: Global,
    words: &[String],
    misuse: Misuse<'_, '_>,
    writer: &mut W,
    errors: &mut E,
) -> u8
    ensures told { result ≡ 0 → (asks_help (map string_bytes words.now) ≡ true) × HasTold (W.contents writer.old) (W.contents writer.new) }
    ensures usage { result ≡ 2 → writer.new ≡ writer.old }
    ensures silent { asks_help (map string_bytes words.now) ≡ false → writer.new ≡ writer.old }
    ensures status { result ≤ 2 }
{
    if asks_help(words) {
        return help(alloc, words, writer, errors);
    }
    match misuse {
        Misuse::Words => wrong_words(alloc, words, errors),
        Misuse::Arguments(call, fault) => wrong_arguments(alloc, call, fault, errors),
        Misuse::Place(fault) => say(alloc, fault, errors),
        Misuse::Lost => say(alloc, NOWHERE, errors),
    }
}

/// Shows what was asked for, or what is wrong with the words that ask for it.
fn help<W: Write, E: Write>(alloc: Global, words: &[String], writer: &mut W, errors: &mut E) -> u8
    ensures told { result ≡ 0 → HasTold (W.contents writer.old) (W.contents writer.new) }
    ensures usage { result ≡ 2 → writer.new ≡ writer.old }
    ensures status { result ≤ 2 }
{
    match fault_of_words(alloc, words) {
        Ok(Some(error)) => show(alloc, &error, writer, errors),
        Ok(None) => say(alloc, unnoticed(words), errors),
        Err(_) => no_memory(errors),
    }
}

/// Shows a text on the stream that it is for: help and version are asked for, all else is wrong.
fn show<W: Write, E: Write>(alloc: Global, error: &Error, writer: &mut W, errors: &mut E) -> u8
    ensures told { result ≡ 0 → HasTold (W.contents writer.old) (W.contents writer.new) }
    ensures usage { result ≡ 2 → writer.new ≡ writer.old }
    ensures status { result ≤ 2 }
{
    if error.use_stderr() {
        return accuse(alloc, error, errors);
    }
    match error.to_string(alloc) {
        Ok(text) => tell(text.as_bytes(), writer),
        Err(_) => no_memory(errors),
    }
}

/// Says which usage error there is.
fn wrong_words<E: Write>(alloc: Global, words: &[String], errors: &mut E) -> u8
    ensures { (result ≡ 1) ⊎ (result ≡ 2) }
{
    match fault_of_words(alloc, words) {
        Ok(Some(error)) => accuse(alloc, &error, errors),
        Ok(None) => say(alloc, unnoticed(words), errors),
        Err(_) => no_memory(errors),
    }
}

/// Says what is wrong with the arguments of a call.
fn wrong_arguments<E: Write>(
    alloc: Global,
    call: &Call<'_>,
    fault: ArgumentFault,
    errors: &mut E,
) -> u8
    ensures { (result ≡ 1) ⊎ (result ≡ 2) }
{
    if let ArgumentFault::Bad(kind) = fault {
        return bad_argument(alloc, kind, errors);
    }
    match fault_of_arguments(alloc, call) {
        Ok(Some(error)) => accuse(alloc, &error, errors),
        Ok(None) => say(alloc, fault, errors),
        Err(_) => no_memory(errors),
    }
}

/// Says what an argument for the field is.
fn bad_argument<E: Write>(alloc: Global, kind: FieldKind, errors: &mut E) -> u8
    ensures { (result ≡ 1) ⊎ (result ≡ 2) }
{
    let (name, meaning) = (kind.name(), meaning(kind));
    match format!(in alloc; "error: <{name}> is {meaning}\n") {
        Ok(text) => misused(&text, errors),
        Err(_) => no_memory(errors),
    }
}

/// Says what the manual finds wrong.
fn accuse<E: Write>(alloc: Global, error: &Error, errors: &mut E) -> u8
    ensures { (result ≡ 1) ⊎ (result ≡ 2) }
{
    if error.kind() == ErrorKind::OutOfMemory {
        return no_memory(errors);
    }
    match error.to_string(alloc) {
        Ok(text) => misused(&text, errors),
        Err(_) => no_memory(errors),
    }
}

/// Says what is wrong.
fn say<D: Display + Drop, E: Write>(alloc: Global, wrong: D, errors: &mut E) -> u8
    ensures { (result ≡ 1) ⊎ (result ≡ 2) }
{
    match format!(in alloc; "error: {wrong}\n\nFor more information, try '--help'.\n") {
        Ok(text) => misused(&text, errors),
        Err(_) => no_memory(errors),
    }
}

/// Whether the words ask for help or the version: in the place of an option, or in the place of all arguments of an op.
fn asks_help(words: &[String]) -> bool
    ensures { result ≡ asks_help (map string_bytes words.now) }
{
    match words {
        [] | [_] => false,
        [_, word, others @ ..] if word.as_str() == "run" => asks_in_front(others),
        [_, words @ ..] => asks_in(words),
    }
}

/// The same of words that are not those of `run`.
fn asks_in(words: &[String]) -> bool
    ensures { result ≡ asks_of (map string_bytes words.now) (op_and_more (map string_bytes words.now)) }
{
    match op_and_more(words) {
        None => asks_in_front(words),
        Some((_, arguments)) => {
            let (front, _) = words.split_at(words.len() - arguments.len() - 1);
            is_help_alone(arguments) || asks_in_front(front)
        }
    }
}

/// Whether such a word stands in the place of an option.
fn asks_in_front(words: &[String]) -> bool
    ensures { result ≡ asks_in_front (map string_bytes words.now) }
{
    match words {
        [] => false,
        [word] => is_help(word.as_str()),
        [word, next @ ..] if is_alone(word.as_str()) => is_help(word.as_str())
            || asks_in_front(next),
        [word, _, others @ ..] => is_help(word.as_str()) || asks_in_front(others),
    }
}

/// Whether such a word is the only one.
fn is_help_alone(words: &[String]) -> bool
    ensures { result ≡ is_help_alone (map string_bytes words.now) }
{
    match words {
        [word] => is_help(word.as_str()),
        _ => false,
    }
}

/// Whether the word asks for help or the version.
fn is_help(word: &str) -> bool
    ensures { result ≡ is_help word.now }
{
    word == "--help" || word == "-h" || word == "--version" || word == "-V"
}
