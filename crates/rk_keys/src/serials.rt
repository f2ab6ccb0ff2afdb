//! The serials of keys and rings.
ghost use Rattle.std.specs.Prelude.{◌≡◌, ◌≤◌, ◌<◌, ◌+◌, ◌*◌, ◌^◌, ℕ, MatchOption, IfSome};
ghost use Rattle.std.specs.FinSet as set;
ghost use Rattle.rk_names.specs.Numbers.{serial_of};
ghost use Rattle.rk_table.specs.Says.{Says};
ghost use Rattle.rk_keys.specs.Serials.{Drawn, HasSerials, IsFresh, IsNext, Extends, with_drawn};

use rk_names::Serial;
use std::marker::Model;

/// The serials that may be drawn, `first`, `first + stride`, `first + 2 * stride` .. up to 2,147,483,647, each once (keyrings(7): a serial is a
/// positive integer). A copy draws for itself, so two copies may draw the same. No call takes memory, and each takes the same time always.
#[derive(Clone, Copy, Debug)]
pub struct Serials {
    /// The first of them.
    first: Serial,
    /// How far each is from the one before, at least 1.
    stride: u32,
    /// How many were drawn.
    count: u32,
}

impl Model for Serials {
    ghost use Rattle.std.specs.Prelude.{◌≤◌, ◌<◌, ◌^◌};
    ghost use Rattle.std.specs.FinSet as set;
    ghost use Rattle.rk_keys.specs.Serials.{Drawn, drawn_code};
    ghost use Rattle.rk_keys.specs.Drawing.{drawn_in_order, len-first_of_form};

    ghost Value = { Drawn };

    ghost coded = { drawn_code };

    ghost view = { λ s. drawn_in_order s.first s.stride s.count };

    ghost invariant = { λ s. (1 ≤ s.first) × (1 ≤ s.stride) × (s.count < 2 ^ 31) };

    ghost inverse = { λ d. record { first = d.first; stride = d.stride; count = set.len d.used } };

    ghost use Rattle.std.proofs.Common.{ap};

    ghost inverse_ok = { λ s h. ap (λ n. record { first = s.first; stride = s.stride; count = n }) (len-first_of_form s.first s.stride s.count h.1) };
}

impl Serials {
    /// No serial is drawn yet.
    pub fn new(first: Serial, stride: u32) -> Serials
        requires { 1 ≤ stride }
        ensures { result ≡ record { first = first; stride = stride; used = set.empty } }
    {
        let _ = first.get();
        Serials {
            first,
            stride,
            count: 0,
        }
    }

    /// Whether so many serials are left.
    pub fn left(&self, count: u32) -> bool
        ensures { Says result (HasSerials self.now count) }
    {
        count == 0
            || of_form(
                self.first,
                self.stride,
                self.count.saturating_add(count - 1),
            )
            .is_some()
    }

    /// Draws the least unused serial. `None` exactly if none is left, and then nothing changes.
    pub fn draw(&mut self) -> Option<Serial>
        ensures cases { MatchOption result (¬ (HasSerials self.old 1) × (self.new ≡ self.old)) (λ k. IsNext self.old k × (self.new ≡ with_drawn k self.old)) }
        ensures fresh { IfSome result (IsFresh self.old) }
        ensures left { (n : ℕ) → HasSerials self.old (n + 1) → HasSerials self.new n }
        ensures extends { Extends self.old self.new }
        ensures few { IfSome result (λ _. set.len self.old.used < 2 ^ 31) }
    {
        let next = of_form(self.first, self.stride, self.count)?;
        self.count += 1;
        Some(next)
    }
}

/// The serial of this index, from 0; `None` if it would pass 2,147,483,647.
fn of_form(first: Serial, stride: u32, index: u32) -> Option<Serial>
    ensures { result ≡ serial_of (first + stride * index) }
{
    let number = u64::from(first.get()) + u64::from(stride) * u64::from(index);
    Serial::new(u32::try_from(number).ok()?)
}
