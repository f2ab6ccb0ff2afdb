//! What is wrong with a value that only a closer look finds wrong.
ghost use Rattle.std.specs.Prelude.{◌≡◌, ◌&&◌, map, not, option_map, string_bytes, Some};
ghost use Rattle.std.specs.List.{list_all};
ghost use Rattle.rk_options.specs.Said.{said_by};
ghost use Rattle.rk_daemon.specs.Settings.{is_octal_digit};
ghost use Rattle.reqkeyd.specs.Complaint.{complaint_by, complaint_text, names_complaint, rule_text, serve_complaint};

use rk_names::{Callout, Description, NameFault, TypeName};
use rk_options::Options;
use rk_variables::is_library;
use std::fmt;

/// An invalid value, and why it is.
#[derive(Clone, Copy, Debug)]
pub struct Complaint<'a> {
    /// The word as it was written, to be shown.
    value: &'a str,
    /// Which option or argument it is for.
    name: &'static str,
    /// What is wrong with it.
    reason: &'static str,
}

/// The flag of `serve`.
const FLAGS: [&str; 1] = ["--until-eof"];

impl<'a> Complaint<'a> {
    ghost use Rattle.std.specs.Prelude.{◌≡◌, option_map};
    ghost use Rattle.rk_options.specs.Said.{said_by};
    ghost use Rattle.reqkeyd.specs.Complaint.{complaint_by, names_complaint, serve_complaint};

    /// The first value that is wrong in words that look right: of `--mode` and `--keyutils` of `serve`, and of the names of `pick`.
    pub fn of(words: &'a [String]) -> Option<Complaint<'a>> {
        match words {
            [_, word, words @ ..] if word.as_str() == "serve" => Complaint::of_serve(&Options {
                words,
                flags: &FLAGS,
            }),
            [_, word, .., typ, desc, callout] if word.as_str() == "pick" => {
                Complaint::of_names(typ.as_str(), desc.as_str(), callout.as_str())
            }
            _ => None,
        }
    }

    /// The same of the options of `serve`.
    fn of_serve(options: &Options<'a>) -> Option<Complaint<'a>>
        ensures { option_map complaint_by result ≡ serve_complaint (said_by options.now) }
    {
        if let Some(Some(value)) = options.value_of("--mode")
            && !is_octal(value)
        {
            return Some(Complaint {
                value,
                name: "--mode <OCTAL>",
                reason: "it has to be octal digits, 0 to 777",
            });
        }
        if let Some(Some(value)) = options.value_of("--keyutils")
            && !is_library(value)
        {
            return Some(Complaint {
                value,
                name: "--keyutils <FILE>",
                reason: "it has to begin with /, and to have no space and no colon",
            });
        }
        None
    }

    /// The same of the names of `pick`.
    fn of_names(typ: &'a str, desc: &'a str, callout: &'a str) -> Option<Complaint<'a>>
        ensures { option_map complaint_by result ≡ names_complaint typ.now desc.now callout.now }
    {
        if let Some(fault) = TypeName::fault(typ.as_bytes()) {
            return Some(Complaint {
                value: typ,
                name: "<type>",
                reason: rule(fault, "it has more than 31 bytes"),
            });
        }
        if let Some(fault) = Description::fault(desc.as_bytes()) {
            return Some(Complaint {
                value: desc,
                name: "<description>",
                reason: rule(fault, "it has more than 4095 bytes"),
            });
        }
        let fault = Callout::fault(callout.as_bytes())?;
        Some(Complaint {
            value: callout,
            name: "<callout>",
            reason: rule(fault, "it has more than 4095 bytes"),
        })
    }
}

/// The rule that a name breaks, in words.
fn rule(fault: NameFault, too_long: &'static str) -> &'static str
    ensures { result.now ≡ rule_text fault too_long.now }
{
    match fault {
        NameFault::Empty => "it is empty",
        NameFault::TooLong => too_long,
        NameFault::Dot => "it begins with a dot",
        NameFault::Byte => "it is not UTF-8, or has a zero byte",
        NameFault::NoMemory => "no memory",
    }
}

/// Whether a text has octal digits alone.
fn is_octal(text: &str) -> bool
    ensures { result ≡ list_all is_octal_digit text.now }
{
    text.as_bytes()
        .iter()
        .all(|byte| matches!(*byte, b'0'..=b'7'))
}

impl<'a> fmt::Display for Complaint<'a> {
    ghost output = { λ c. Some (complaint_text (complaint_by c)) };

    fn fmt<W: fmt::Write>(&self, f: &mut fmt::Formatter<W>) -> fmt::Result {
        write!(
            f,
            "invalid value '{}' for '{}': {}",
            self.value, self.name, self.reason
        )
    }
}
