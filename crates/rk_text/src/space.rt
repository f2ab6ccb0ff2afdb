//! White space within a line.
ghost use Rattle.std.specs.Prelude.{◌≡◌};

/// Which bytes are white space within a line. A newline is not white space: it ends the line.
#[derive(Clone, Copy, Debug, PartialEq, Eq)]
pub enum Space {
    /// Space and tab, as isblank(3) has them.
    Blank,
    /// Space, tab, vertical tab, form feed and carriage return, as isspace(3) has them.
    Any,
}

impl Space {
    ghost use Rattle.rk_text.specs.Text.{is_space};

    /// Whether the byte is white space.
    pub fn has(self, byte: u8) -> bool
        ensures { result ≡ is_space self byte }
    {
        match self {
            Space::Blank => matches!(byte, b' ' | b'\t'),
            Space::Any => matches!(byte, b' ' | b'\t' | 0x0b | 0x0c | b'\r'),
        }
    }
}
