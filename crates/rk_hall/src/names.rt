//! The ledgers of one `Halls`, which differ by their types.
ghost use Rattle.std.specs.Prelude.{ℕ, ◌+◌, ◌*◌};

use std::marker::{Brand, PhantomData};
use std::sync::ledger::Ledger;

/// Names the ledgers of one `Halls`, so that its seats, tokens and volumes work with no other. A program picks them where it makes its `Halls`.
pub trait Names {
    ghost name: { ℕ → ℕ };
}

impl Names for Brand {
    ghost name = { λ k. 0 };
}

/// The ledger of the turns of hall `H`: what the seats' parts have makes up its record.
pub struct Calls<N: Names, const H: u64>(PhantomData<N>);

impl<N: Names, const H: u64> Ledger for Calls<N, H> {
    ghost name = { N.name (2 * H) };

    ghost parts = { 4294967296 };
}

/// The ledger of the tokens of hall `H`: one for each construction.
pub struct Out<N: Names, const H: u64>(PhantomData<N>);

impl<N: Names, const H: u64> Ledger for Out<N, H> {
    ghost name = { N.name (2 * H + 1) };

    ghost parts = { 4294967296 };
}
