// What is wrong with a line that says no command.
ghost use Rattle.std.specs.Prelude.{◌≡◌, Some};
ghost use Rattle.job.specs.Faults.{text_of};

use std::fmt;

#[derive(Clone, Copy)]
pub enum Wrong {
    UnknownCommand,
    MissingWord,
    WordTooMany,
    NotANumber,
    NumberTooLarge,
    LineTooLong,
}

impl Wrong {
    pub fn text(self) -> &'static str
        ensures { result.now ≡ text_of self }
    {
        match self {
            Wrong::UnknownCommand => "unknown command",
            Wrong::MissingWord => "missing word",
            Wrong::WordTooMany => "word too many",
            Wrong::NotANumber => "not a number",
            Wrong::NumberTooLarge => "number too large",
            Wrong::LineTooLong => "line too long",
        }
    }
}

impl fmt::Display for Wrong {
    ghost output = { λ w. Some (text_of w) };

    fn fmt<W: fmt::Write>(&self, f: &mut fmt::Formatter<W>) -> fmt::Result {
        f.write_str(self.text())
    }
}
