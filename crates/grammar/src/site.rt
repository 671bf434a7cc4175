// Where a class is checked, and what a type name stands for there.
ghost use Rattle.std.specs.Prelude.{◌≡◌, None, MatchResult};
ghost use Rattle.table.specs.declared.kinds.Class.TheVariants.{Name};
ghost use Rattle.parts.specs.Parts.{Is, symbol_at};
ghost use Rattle.library.specs.Contents.{contents};
ghost use Rattle.library.specs.Environments.{type_env};
ghost use Rattle.grammar.specs.declared.fault.Rule.TheVariants.{TypeName};
ghost use Rattle.grammar.specs.Faults.{broken};
ghost use Rattle.grammar.specs.PassTwo.{Names};

use super::fault::{Rule, RuleFault};
use library::held::Library;
use parts::Shaped;
use values::types::Type;

// A class by its number, with its super-class's, in a batch that stands behind so many nodes that the library keeps.
#[derive(Clone, Copy)]
pub struct Site<'a> {
    pub batch: Shaped<'a>,
    pub class: u8,
    pub parent: u8,
    pub kept: usize,
}

// The type that the name at `p` stands for.
pub fn type_at(batch: Shaped<'_>, p: usize, library: &Library) -> Result<Type, RuleFault>
    requires { Is batch.nodes.now Name p }
    ensures { MatchResult result (λ t. Names batch.entry.nodes.now (contents library.now).classes p t) (λ f. (type_env (contents library.now).classes (symbol_at batch.entry.nodes.now p) ≡ None) × (f ≡ broken TypeName p)) }
{
    library
        .type_named(batch.symbol(p))
        .ok_or(Rule::TypeName.at(p))
}
