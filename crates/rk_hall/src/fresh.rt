//! Ledgers that no `Halls` has yet.
ghost use Rattle.std.specs.Prelude.{◌≡◌};

use std::sync::ledger::Blank;

/// The two ledgers of one hall, which no `Halls` has yet.
#[derive(Drop)]
pub struct Ledgers {
    /// Counts the steps, by the seats that make them.
    pub calls: Blank,
    /// Counts the constructions, by the tokens that are out.
    pub out: Blank,
    // A part for each seat that the hall can hand out.
    pub ghost call_parts: { calls.parts ≡ 4294967296 },
    // A part for each token that can be out at a time.
    pub ghost out_parts: { out.parts ≡ 4294967296 },
}

impl Ledgers {
    fn new() -> Ledgers {
        Ledgers {
            calls: Blank::new(4_294_967_296),
            out: Blank::new(4_294_967_296),
        }
    }
}

/// The ledgers that a new `Halls` needs: two for each hall. They take no bytes; whoever makes a `Halls` makes them first, and names them by a type.
#[derive(Drop)]
pub struct Fresh {
    /// Those of hall 0.
    pub zero: Ledgers,
    /// Those of hall 1.
    pub one: Ledgers,
    /// Those of hall 2.
    pub two: Ledgers,
    /// Those of hall 3.
    pub three: Ledgers,
}

impl Fresh {
    /// New ledgers.
    pub fn new() -> Fresh {
        Fresh {
            zero: Ledgers::new(),
            one: Ledgers::new(),
            two: Ledgers::new(),
            three: Ledgers::new(),
        }
    }
}
