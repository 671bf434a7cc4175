// The questions that a library answers: a class, and a member of a class.
ghost use Rattle.std.specs.Prelude.{◌≡◌};
ghost use Rattle.library.specs.Contents.{contents};
ghost use Rattle.library.specs.Questions.{refusal, class_answer, member_answer};

use super::definition::Definition;
use super::held::Library;
use names::find;
use types::class::Class;

// Why there is no answer, by the number of the refusal.
#[derive(Clone, Copy, PartialEq, Eq, Debug)]
pub enum Unanswered {
    // the symbol is no class
    NoClass = 8,
    // the class has nothing under the name
    NoMember = 10,
}

impl Unanswered {
    // Its fixed number, by which callers outside tell the refusals.
    pub fn number(self) -> u8
        ensures { result ≡ refusal self }
    {
        self as u8
    }
}

impl Library {
    // A class by its name, with its number and its super-class's.
    pub fn class(&self, name: u16) -> Result<Class, Unanswered>
        ensures { result ≡ class_answer (contents self.now) name }
    {
        find(self.classes(), name).ok_or(Unanswered::NoClass)
    }

    // What a name stands for in a class, inherited members too.
    pub fn member(&self, class: u16, name: u16) -> Result<Definition, Unanswered>
        ensures { result ≡ member_answer (contents self.now) class name }
    {
        let found = self.class(class)?;
        let member = self
            .member_named(found.number, name)
            .ok_or(Unanswered::NoMember)?;
        Ok(member.definition)
    }
}
