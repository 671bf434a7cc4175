// What pass three makes of a batch is settled.
ghost use Rattle.typing.specs.Settled.{Settles};

// An expression has one type with its attributes or one broken rule, and never both.
pub fn expressions_settled()
    ensures { Settles }
{}
