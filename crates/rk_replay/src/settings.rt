//! What the head of a script sets.
ghost use Rattle.std.specs.Prelude.{◌≡◌, [], IfOk, OnOk, IfErr};
ghost use Rattle.rk_conf.specs.Faults.{IsFaultFor};
ghost use Rattle.rk_conf.specs.Reading.{faults_in, lines_in};
ghost use Rattle.rk_replay.specs.Script.{happening_in};
ghost use Rattle.rk_replay.specs.Settings.{Sets, configured};

use crate::script_line::ScriptLine;
use crate::transcript::{LineFault, Transcript};
use rk_conf::{Conf, ConfFault};
use rk_core::Limits;
use rk_names::{Moment, Serial};
use rk_served::{Bytes, Happening};
use std::alloc::{AllocError, Global};

/// The configuration of a script that sets none: one handler makes every key.
const DEFAULT_CONF: &[u8] = b"create * * * /bin/handler %o %k %u %g %T %P %S";

/// For so many seconds a key is negative whose handler did not complete it, where a script sets no other time.
const NEGATIVE: u32 = 60;

/// What the lines of a script before its first happening set.
#[derive(Debug, Drop)]
pub struct Settings {
    /// The configuration lines, each with its newline.
    conf: Bytes,
    /// For so many seconds a key is negative whose handler did not complete it.
    negative: u32,
}

impl Settings {
    /// Nothing is set yet. It takes no memory.
    pub fn new(alloc: Global) -> Settings
        ensures conf { result.conf ≡ [] }
        ensures negative { result.negative ≡ 60 }
    {
        Settings {
            conf: Bytes::new(Vec::new(alloc)),
            negative: NEGATIVE,
        }
    }

    /// Takes in what a line says, and writes the line where it is invalid. What happens on it is handed back. The only refusal is out of memory.
    pub fn hear(
        &mut self,
        number: u64,
        said: ScriptLine,
        transcript: &mut Transcript,
    ) -> Result<Option<(Moment, Happening)>, AllocError>
        ensures sets { OnOk result (Sets said number self.old transcript.old self.new transcript.new) }
        ensures happens { IfOk result (λ first. first ≡ happening_in said) }
    {
        match said {
            ScriptLine::Blank => {}
            ScriptLine::Conf(text) => {
                self.conf.extend(text.as_slice())?;
                self.conf.extend(b"\n")?;
            }
            ScriptLine::Negative(seconds) => self.negative = seconds,
            ScriptLine::Happens(now, happening) => return Ok(Some((now, happening))),
            ScriptLine::Wrong => transcript.refuse(number, LineFault::NotALine)?,
        }
        Ok(None)
    }

    /// The configuration that is set, or the default one.
    pub fn conf(&self, alloc: Global) -> Result<Conf, ConfFault>
        ensures ok { OnOk result (faults_in (configured self.now.conf) ≡ []) }
        ensures lines { IfOk result (λ conf. conf ≡ lines_in (configured self.now.conf)) }
        ensures err { IfErr result (λ fault. IsFaultFor fault (faults_in (configured self.now.conf))) }
    {
        Conf::read(alloc, self.conf_text())
    }

    fn conf_text(&self) -> &[u8]
        ensures { result.now ≡ configured self.now.conf }
    {
        let text = self.conf.as_slice();
        if text.is_empty() { DEFAULT_CONF } else { text }
    }

    /// What the machine begins with: serials are drawn from 1 on. A script is its user's own, so that names need no secret seed.
    pub fn limits(&self) -> Limits
        ensures negative { result.negative ≡ self.now.negative }
        ensures first { result.first ≡ 1 }
        ensures stride { result.stride ≡ 1 }
    {
        Limits {
            negative: self.negative,
            first: Serial::new(1).unwrap(),
            stride: 1,
            seed: 0,
        }
    }
}
