//! The commands that look for keys.
ghost use Rattle.std.specs.Prelude.{◌≡◌};
ghost use Rattle.rk_ctl.specs.Searches.{search_named};

/// What keys are looked for, for.
#[derive(Clone, Copy)]
pub enum Search {
    /// To be listed.
    List,
    /// To take what is negative, has expired or was revoked out of the user ring.
    Sweep,
}

impl Search {
    /// The search of this name.
    pub fn named(word: &str) -> Option<Search>
        ensures { result ≡ search_named word.now }
    {
        match word {
            "list" => Some(Search::List),
            "sweep" => Some(Search::Sweep),
            _ => None,
        }
    }
}
