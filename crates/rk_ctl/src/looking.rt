//! A search for keys, and what is printed of it.
ghost use Rattle.std.specs.Prelude.{◌≡◌, ◌≤◌, List, ℕ, Result, Ok, MatchResult};
ghost use Rattle.std.specs.Io.KnownBytes.{Appends};
ghost use Rattle.rk_client.specs.declared.fault.PeerFault.{PeerFault as Faults};
ghost use Rattle.rk_names.specs.declared.errors.Errno.{Errno};
ghost use Rattle.rk_ctl.specs.Addresses.{address_by};
ghost use Rattle.rk_ctl.specs.Daemon.{Searched, and_then};
ghost use Rattle.rk_ctl.specs.Searching.{FoundSaid, Told, Turned};
ghost use Rattle.rk_ctl.specs.Surveys.{greeting_for, survey_by};

use crate::daemon::Daemon;
use crate::searching::Found;
use crate::survey::Survey;
use crate::telling::{no_output, refusal, refused, tell};
use rk_message::Reply;
use std::alloc::Global;
use std::io::Write;

/// Looks for the keys, and prints what is found; a refusal, and why there is no answer, go to `errors`.
pub fn look<D: Daemon, W: Write, E: Write>(
    alloc: Global,
    daemon: &mut D,
    survey: &Survey<'_>,
    writer: &mut W,
    errors: &mut E,
) -> u8
    ensures told { result ≡ 0 → (text : List ℕ) × Appends (W.contents writer.old) (W.contents writer.new) text
        × (D.story daemon.new ≡ and_then (D.story daemon.old)
        (Searched (address_by survey.now.address) (greeting_for (survey_by survey.now)) survey.now.search (Ok (Told text)))) }
    ensures spoke { (answer : Result FoundSaid Faults) × (D.story daemon.new ≡ and_then (D.story daemon.old)
        (Searched (address_by survey.now.address) (greeting_for (survey_by survey.now)) survey.now.search answer))
        × MatchResult answer (λ f. (e : Errno) → f ≡ Turned e → result ≡ 1) (λ fault. result ≡ 1) }
    ensures status { result ≤ 1 }
{
    match daemon.search(survey.address, &survey.greeting(), survey.search) {
        Ok(Found::Text(text)) => print(&text, writer, errors),
        Ok(Found::Refused(errno)) => refusal(alloc, Reply::Refused(errno), errors),
        Err(fault) => refused(fault, daemon.trouble(), errors),
    }
}

/// Prints a text, and says so if that fails.
fn print<W: Write, E: Write>(text: &[u8], writer: &mut W, errors: &mut E) -> u8
    ensures told { result ≡ 0 → Appends (W.contents writer.old) (W.contents writer.new) text.now }
    ensures status { result ≤ 1 }
{
    if tell(text, writer) == 0 {
        return 0;
    }
    no_output(errors)
}
