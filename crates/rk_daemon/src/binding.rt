//! How a volume is tied to the one before it.
ghost use Rattle.std.specs.Prelude.{◌≡◌, ℕ, [], ◌∷◌, List, Option, unwrap_or};
ghost use Rattle.rk_daemon.specs.Binding.{Binds, Written};
ghost use Rattle.rk_daemon.specs.Story.{Does, and_then};

use crate::bindery::Bindery;
use log::{Log, warn};
use rk_hall::{Names, Volume};
use rk_volumes::{Head, RunNumber, Seal, Sum};

/// What a volume says of itself, of halls with these seconds for negative keys.
pub fn head_of<N: Names>(volume: &Volume<N>, negative: u32) -> Head
    ensures { result ≡ record { hall = volume.now.hall; negative = negative; index = volume.now.index; before = volume.now.before } }
{
    Head {
        hall: volume.hall(),
        negative,
        index: volume.index(),
        before: volume.before(),
    }
}

/// Writes the volume of this run with this head, once the one before it in its hall is done with, since it says which sum that has; whether it is the last of
/// its hall. Of one that can't be written a warning is logged; then the record lacks it, and the next one is tied to the one before it.
pub fn bind<L: Log, B: Bindery>(
    log: &L,
    bindery: &mut B,
    run: RunNumber,
    closing: bool,
    head: &Head,
)
    ensures { Does (Binds run closing head.now) (B.story bindery.old) (B.story bindery.new) }
{
    let index = head.index;
    let previous = bindery.before(index);
    let seal = Seal {
        run,
        closing,
        previous,
    };
    let sum = written(log, bindery, &seal, head);
    bindery.settle(index, sum);
}

/// Writes a volume in its seal. The sum that the next one has to say is its own, or that of the one before if it can't be written, which is warned of.
fn written<L: Log, B: Bindery>(log: &L, bindery: &mut B, seal: &Seal, head: &Head) -> Sum
    ensures { (sum : Option (List ℕ)) × (B.story bindery.new ≡ and_then (B.story bindery.old) (Written seal.now head.now sum ∷ []))
        × (result ≡ unwrap_or sum seal.now.previous) }
{
    match bindery.write(seal, head) {
        Ok(sum) => sum,
        Err(error) => {
            let (hall, index) = (head.hall.number(), head.index);
            warn!(log; "volume {hall} {index}: {error}");
            seal.previous
        }
    }
}
