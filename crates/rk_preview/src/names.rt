//! The names of a request, among words.
ghost use Rattle.std.specs.Prelude.{◌≡◌, None, option_map, map, string_bytes, IfOk};
ghost use Rattle.rk_names.specs.Rules.{type_fault, description_fault, callout_fault};

use rk_names::{Callout, Description, TypeName};

/// The type, the description and the callout of a request; they borrow the words in which they stand, and each keeps its rule.
#[derive(Clone, Copy, Debug)]
pub struct Names<'a> {
    /// The type of the key: 1 to 31 bytes, the first no dot.
    pub typ: &'a str,
    /// Its description: 1 to 4,095 bytes.
    pub desc: &'a str,
    /// The callout: at most 4,095 bytes.
    pub callout: &'a str,
    // The type keeps its rule.
    ghost typ_rule: { type_fault typ.now ≡ None },
    // So does the description.
    ghost desc_rule: { description_fault desc.now ≡ None },
    // So does the callout.
    ghost callout_rule: { callout_fault callout.now ≡ None },
}

impl<'a> Names<'a> {
    ghost use Rattle.rk_preview.specs.Named.{named_by, names_said};

    /// The names that three words say; `None` for more or fewer words, and where one breaks its rule.
    pub fn read(words: &'a [String]) -> Option<Names<'a>>
        ensures { option_map named_by result ≡ names_said (map string_bytes words.now) }
    {
        let [typ, desc, callout] = words else {
            return None;
        };
        let (typ, desc, callout) = (typ.as_str(), desc.as_str(), callout.as_str());
        if TypeName::fault(typ.as_bytes()).is_none()
            && Description::fault(desc.as_bytes()).is_none()
            && Callout::fault(callout.as_bytes()).is_none()
        {
            Some(Names { typ, desc, callout })
        } else {
            None
        }
    }
}
