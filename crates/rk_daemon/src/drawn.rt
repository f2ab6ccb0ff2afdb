//! What a run draws at its start.
ghost use Rattle.std.specs.Prelude.{IfErr};

use crate::fault::Fault;
use rk_volumes::RunNumber;
use std::random::RandomSource;

/// What a run draws at its start, which nobody else knows.
#[derive(Clone, Copy)]
pub struct Drawn {
    /// With what names are hashed.
    pub seed: u64,
    /// The number of the run in its record.
    pub run: RunNumber,
}

impl Drawn {
    ghost use Rattle.std.specs.Prelude.{IfErr};
    ghost use Rattle.rk_daemon.specs.Faults.{IsRandom};

    /// Draws them.
    pub fn of<R: RandomSource>(rt: &R) -> Result<Drawn, Fault>
        ensures { IfErr result IsRandom }
    {
        let (mut seed, mut run) = ([0; 8], [0; 16]);
        if let Err(error) = rt.fill_bytes(&mut seed) {
            return Err(Fault::Random(error));
        }
        if let Err(error) = rt.fill_bytes(&mut run) {
            return Err(Fault::Random(error));
        }
        let seed = u64::from_le_bytes(seed);
        Ok(Drawn { seed, run })
    }
}
