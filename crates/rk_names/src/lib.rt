//! The values that a request_key daemon speaks of, each of which keeps its rule.
//!
//! # Purpose
//!
//! A key has a [`TypeName`] and a [`Description`], a handler gets a [`Callout`], a key holds a [`Payload`]. Keys and rings are numbered by a
//! [`Serial`], a step happens at a [`Moment`], a refusal is an [`Errno`]; who acts, and in whose rings, is a [`Context`]. Whoever holds one of
//! these values holds its rule with it: a `TypeName` has 1 to 31 bytes of text and no leading dot, wherever it came from.
//!
//! # Making them
//!
//! A maker tests its rule and refuses by name, in one order: `Empty`, `TooLong`, `Dot`, `Byte`, and out of memory last. So `TypeName::new(b"user")`
//! is made, `TypeName::new(b".x")` is refused with `Dot`. If bytes are still borrowed, as in a message that is being read, a [`TypeView`] keeps
//! the same rule and takes no memory, and `to_owned` copies it without another look. [`DescriptionView`], [`CalloutView`] and [`PayloadView`] do
//! likewise. A type lies in its value and takes no memory, and so do a description of at most 30 bytes and a callout of at most 22
//! (`IN_VALUE`). The copies of a longer one share its bytes, and so do those of a payload that `to_owned` has made. [`Payload::new`] moves the bytes
//! that it is handed and takes no memory either.
//!
//! # How it is built
//!
//! A file for each name (`type_name`, `description`, `callout`) and for `payload`; `text` has the rule that all names share, `context` who acts, `numbers`
//! what is a number, `errors` the refusals. `name_bytes` keeps the bytes of a description or a callout, `few_bytes` those that stand in the value,
//! `shared_bytes` those that copies share, and `equality` tells whether two names have the same bytes. The rules stand once, in `specs/Rules.antt`, as
//! functions from bytes to the first fault; a maker, its test on borrowed bytes and its reader all cite them.
#![tactic(auto)]

mod callout;
mod context;
mod description;
mod equality;
mod errors;
mod few_bytes;
mod name_bytes;
mod numbers;
mod payload;
mod shared_bytes;
mod text;
mod type_name;

pub use callout::{Callout, CalloutView};
pub use context::{Context, Setting};
pub use description::{Description, DescriptionView};
pub use errors::{Errno, KeyError, NameFault};
pub use name_bytes::LongBytes;
pub use numbers::{Moment, NameNo, Serial, SessionId};
pub use payload::{Payload, PayloadView};
pub use shared_bytes::SharedBytes;
pub use type_name::{TypeName, TypeView};
