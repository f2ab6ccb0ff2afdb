//! `check` and `pick`: what a configuration has to say, written.
ghost use Rattle.std.specs.Prelude.{◌≡◌, ◌≤◌, false};
ghost use Rattle.rk_preview.specs.Views.{asked_by};
ghost use Rattle.reqkeyd.specs.Outcome.{HasShown, is_check};

use crate::doubting::warn_of;
use crate::reason::tell_error;
use crate::run::{FAILED, tell};
use rk_preview::Preview;
use std::fs;
use std::fs::Files;
use std::io::Write;

/// Reads the configuration, and writes what it has to say to what is asked; of a check, `errors` gets a line for each thing that is allowed and hardly
/// meant. The status is 1, with a line on `errors`, if it can't be read or has
/// nothing to say, or where `writer` fails.
#[inline(never)]
pub fn show<R: Files + AllocGlobal, W: Write, E: Write>(
    rt: &R,
    preview: &Preview<'_>,
    writer: &mut W,
    errors: &mut E,
) -> u8
    ensures shown { result ≡ 0 → HasShown (asked_by preview.now) (W.contents writer.old) (W.contents writer.new) }
    ensures quiet { is_check (asked_by preview.now) ≡ false → result ≡ 0 → errors.new ≡ errors.old }
    ensures status { result ≤ 1 }
{
    let text = match fs::read(rt, preview.conf()) {
        Ok(text) => text,
        Err(error) => {
            let status = failed("conf", errors);
            tell_error(rt.alloc(), preview.conf(), error, errors);
            return status;
        }
    };
    match preview.of(rt.alloc(), &text) {
        Ok(told) => {
            if tell(&told, writer) == 0 {
                if let Preview::Check(_) = preview {
                    warn_of(rt, preview.conf(), &text, errors);
                }
                return 0;
            }
            failed("output", errors)
        }
        Err(fault) => {
            let _ = writeln!(errors, "reqkeyd: {fault}");
            FAILED
        }
    }
}

/// Says in a word what failed.
fn failed<E: Write>(what: &str, errors: &mut E) -> u8
    ensures { result ≡ 1 }
{
    let _ = writeln!(errors, "reqkeyd: {what}");
    FAILED
}
