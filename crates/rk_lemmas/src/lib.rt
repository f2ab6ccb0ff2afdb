//! Lemmas that the proofs of several crates cite, and that std has not.
//!
//! # Purpose
//!
//! A fact of booleans, options, lists or maps that two crates need stands here once, and they cite it: `use Rattle.rk_lemmas.proofs.Options.{is_there}`.
//! What only one crate needs stays with that crate. So does what is said of a definition of its own; a fact of a table's changes is in `rk_table`.
//!
//! # How it is built
//!
//! There is no code: `proofs` has a file for each topic, `Bools`, `Options`, `Lists` and `Maps`, each lemma with a line that says what it says.
//! Before one is added, `rt lemma` tells whether std has it.
#![tactic(auto)]
