//! Text that comes as bytes: what text is, how it is cut into lines and a line into fields, and what number digits say.
//!
//! # Purpose
//!
//! Names, a configuration and a script are texts. [`is_text`] says which bytes are: UTF-8 without a zero byte, as a C string can hold them.
//! [`cut_line`] cuts a text at its first newline, and [`cut_field`] a line after its first field. So `cut_field(b" a b", Space::Blank)` is
//! `a` and the rest ` b`, and a loop over the rests meets every field of the line. [`number`] is what a field of decimal digits says.
//!
//! # What it promises
//!
//! What is cut off is the first of `lines_of` and of `fields_of` (`specs/Text.antt`), and the rest has the others. A field and a rest of text are
//! text. A number is `number_of` the bytes (`specs/Numbers.antt`), where it is not above a limit. Nothing is copied and no memory is taken; whatever
//! the bytes are, there is an answer, in time in proportion to their number.
//!
//! # How it is built
//!
//! `text` has the test of text, `space` says which bytes are white space, `lines` and `fields` cut, `numbers` reads digits.
#![tactic(auto)]

mod fields;
mod lines;
mod numbers;
mod space;
mod text;

pub use fields::{cut_field, skip_space};
pub use lines::cut_line;
pub use numbers::number;
pub use space::Space;
pub use text::{begins_with, is_text};
