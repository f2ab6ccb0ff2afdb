//! That what is printed can be read back.
ghost use Rattle.rk_preview.specs.Laws.{HasOneReading};

/// No two commands have the same text, so that whoever has the lines has the line's number, its kind, the path and the words. Running it does nothing.
pub fn commands_have_one_reading()
    ensures { HasOneReading }
{}
