//! How serious a warning is, and the word for it, in color or not.
ghost use Rattle.std.specs.Prelude.{◌≡◌, true};
ghost use Rattle.safe_output.specs.Text.{level_word, reaches, shown_word};

#[derive(Clone, Copy, PartialEq, Eq)]
pub enum Level {
    /// The file very likely does something that its owner didn't intend, here and in other parsers.
    Error,
    /// Parsers differ, or a line is ignored.
    Warning,
    /// Worth a look.
    Note,
}

impl Level {
    pub fn word(self) -> &'static str
        ensures { result.now ≡ level_word self }
    {
        match self {
            Level::Error => "error",
            Level::Warning => "warning",
            Level::Note => "note",
        }
    }

    /// Whether the level is `least` or more serious.
    pub fn reaches(self, least: Level) -> bool
        ensures { result ≡ reaches self least }
    {
        match self {
            Level::Error => true,
            Level::Warning => least != Level::Error,
            Level::Note => least == Level::Note,
        }
    }
}

/// The level's word, in its color if there are colors: bold red, yellow or cyan.
pub fn shown_word(has_colors: bool, level: Level) -> &'static str
    ensures { result.now ≡ shown_word has_colors level }
{
    if !has_colors {
        return level.word();
    }
    match level {
        Level::Error => "\x1B[1;31merror\x1B[0m",
        Level::Warning => "\x1B[1;33mwarning\x1B[0m",
        Level::Note => "\x1B[1;36mnote\x1B[0m",
    }
}
