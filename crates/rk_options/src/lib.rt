//! Options among the words of a command line, for programs that read them alike.
//!
//! # Purpose
//!
//! [`Options`] are words as `--conf PATH --uid=5 --negate`, of which some names are flags, which have no value. A program asks for the value of each
//! option by its name, and whether it knows all names. So in `--uid 5 --negate` the value of `--uid` is `5`, the flag `--negate` is there, and for
//! `--uid 5 --uid 6` there is no answer.
//!
//! # What it promises
//!
//! What is found of a name is what the options that the words say give it (`options_of` and `value_in` of `specs/Options.antt`): its value, nothing
//! if it isn't there, and no answer if it is there twice or the words are no options. Numbers are decimal digits without a sign, up to a limit.
//! No call takes memory, and none goes deeper with more words.
#![tactic(auto)]

mod options;

pub use options::Options;
