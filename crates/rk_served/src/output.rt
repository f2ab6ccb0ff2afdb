//! What a replay outputs.
ghost use Rattle.std.specs.Prelude.{◌≡◌};

use crate::bytes::Bytes;
use rk_macro::Command;
use rk_names::Serial;
use std::marker::Model;

/// An output, to a client by its number or to the handler of a key.
#[derive(Debug, Drop)]
pub enum Output {
    /// A frame to a client: the reply to one of its asks.
    ToClient(u32, Bytes),
    /// A frame to a plain handler, or the callout to a piped one.
    ToHandler(Serial, Bytes),
    /// The command that is to be started for a key.
    Start(Serial, Command),
    /// A client is shut: its stream has a length that no frame has, or it is one too many.
    Shut(u32),
    /// The pipes of a handler are shut: its stream has a length that no frame has.
    ShutHandler(Serial),
}

/// The outputs for one happening, in order. In a clause it is the list of them.
#[derive(Debug, Drop)]
pub struct Outputs {
    /// The outputs, first to last.
    items: Vec<Output>,
}

impl Model for Outputs {
    ghost use Rattle.std.specs.Prelude.{List};
    ghost use Rattle.rk_served.specs.declared.output.Output.{Output};

    ghost Value = { List Output };

    ghost view = { λ o. o.items.items };
}

impl Outputs {
    /// These outputs, which it moves. It takes no memory.
    pub fn new(items: Vec<Output>) -> Outputs
        ensures { result ≡ items.items }
    {
        Outputs { items }
    }

    /// The outputs themselves.
    pub fn as_slice(&self) -> &[Output]
        ensures { result.now ≡ self.now }
    {
        &self.items
    }
}
