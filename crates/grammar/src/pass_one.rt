// Pass one: the names of the classes and their hierarchy.
ghost use Rattle.std.specs.Prelude.{◌≡◌, ℕ, ◌<◌, length, MatchResult};
ghost use Rattle.table.specs.declared.kinds.Class.TheVariants.{OneClass};
ghost use Rattle.parts.specs.Parts.{Is};
ghost use Rattle.library.specs.Contents.{contents};
ghost use Rattle.library.specs.Counting.{Untouched};
ghost use Rattle.grammar.specs.Settled.{SettledOne};
ghost use Rattle.grammar.specs.PassOne.{Declares, DeclaresAll, BreaksClass, BreaksOne, Room};

use super::fault::{BatchFault, InClass, MemberFault, Pass, Rule, RuleFault};
use library::held::Library;
use parts::{Shaped, Span};

// Declares the class at `p`, under a super-class that is declared already and with a name that nothing has yet.
fn declare_class(batch: Shaped<'_>, p: usize, library: &mut Library) -> Result<(), RuleFault>
    requires class { Is batch.nodes.now OneClass p }
    requires room { length (contents library.old).classes < 32 }
    ensures { MatchResult result (λ _. Declares batch.entry.nodes.now (contents library.old) p (contents library.new)) (λ f. BreaksClass batch.entry.nodes.now (contents library.old) p f × (contents library.new ≡ contents library.old)) }
{
    let parts = batch.class(p);
    let parent = library
        .class_named(batch.symbol(parts.parent))
        .ok_or(Rule::Class.at(p))?;
    let name = batch.symbol(parts.name);
    if library.type_named(name).is_some() {
        return Err(Rule::Class.at(parts.name));
    }
    library.add_class(name, parent);
    Ok(())
}

// Declares the classes in a list, in order.
pub fn declare_classes(
    batch: Shaped<'_>,
    list: Span,
    library: &mut Library,
) -> Result<(), BatchFault>
    requires { Room batch.nodes.now (contents library.old) list.first list.end }
    ensures rules { MatchResult result (λ _. DeclaresAll batch.entry.nodes.now list.end (contents library.old) list.first (contents library.new)) (λ f. BreaksOne batch.entry.nodes.now list.end (contents library.old) list.first f) }
    ensures settled { SettledOne batch.entry.nodes.now list.end (contents library.old) list.first }
    ensures untouched { (m : ℕ) → Untouched (length (contents library.old).classes) m (contents library.old) (contents library.new) }
{
    for p in batch.positions(list) {
        let within = InClass {
            pass: Pass::One,
            class: batch.symbol(batch.class(p).name),
        };
        declare_class(batch, p, library)
            .map_err(MemberFault::from)
            .map_err(|fault| (within, fault))?;
    }
    Ok(())
}
