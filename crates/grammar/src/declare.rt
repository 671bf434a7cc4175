// The first two passes over a batch.
ghost use Rattle.std.specs.Prelude.{◌≡◌, ◌+◌, ◌≤◌, length, MatchResult};
ghost use Rattle.library.specs.Contents.{contents};
ghost use Rattle.grammar.specs.Passes.{Declared, Undeclared, Decided, RoomFor};

use super::fault::BatchFault;
use super::pass_one::declare_classes;
use super::pass_two::complete_classes;
use library::guard::Extension;
use library::held::Library;
use parts::Shaped;

// The classes of a batch join the library, and get their members. Where a rule is broken, the library is as it was before.
pub fn declare(batch: Shaped<'_>, library: &mut Library) -> Result<(), BatchFault>
    requires nodes { length (contents library.old).nodes + length batch.nodes.now ≤ 1024 }
    requires classes { RoomFor batch.nodes.now (contents library.old) }
    ensures rules { MatchResult result (λ _. Declared batch.entry.nodes.now (contents library.old) (contents library.new)) (λ f. Undeclared batch.entry.nodes.now (contents library.old) f × (contents library.new ≡ contents library.old)) }
    ensures decided { Decided batch.entry.nodes.now (contents library.old) }
{
    let list = batch.elements(batch.program().classes);
    let saved = library.counts();
    let extension = Extension { library, saved };
    extension.library.keep_nodes(batch.nodes);
    declare_classes(batch, list, extension.library)?;
    complete_classes(
        batch,
        list,
        saved.classes as u8,
        saved.nodes,
        extension.library,
    )?;
    extension.accept();
    Ok(())
}
