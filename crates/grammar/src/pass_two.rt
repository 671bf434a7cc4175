// Pass two: the members of the classes.
ghost use Rattle.std.specs.Prelude.{◌+◌, ◌<◌, ◌≤◌, length, MatchResult};
ghost use Rattle.table.specs.Shape.{end_of};
ghost use Rattle.table.specs.declared.kinds.Class.TheVariants.{OneClass};
ghost use Rattle.types.specs.Classes.{Extends};
ghost use Rattle.parts.specs.Parts.{Is};
ghost use Rattle.library.specs.Contents.{contents};
ghost use Rattle.library.specs.Counting.{Untouched};
ghost use Rattle.grammar.specs.Ready.{DeclaredAt, Begins, Numbered};
ghost use Rattle.grammar.specs.Settled.{SettledTwo};
ghost use Rattle.grammar.specs.PassTwo.{Completes, CompletesAll, SharedName, BreaksMembers, BreaksTwo};

use super::fault::{BatchFault, InClass, MemberFault, Pass, Rule};
use super::fields::Fields;
use super::members::declare_members;
use super::methods::Methods;
use super::site::Site;
use library::held::Library;
use library::member::Member;
use names::first_shared;
use parts::{Shaped, Span};
use types::subtypes::parent_of;

// The fault of a method that has the name of a field: it is reported at the method's own name.
fn shared_name(batch: Shaped<'_>, kept: usize, method: Member) -> MemberFault
    requires { DeclaredAt batch.nodes.now kept method }
    ensures { SharedName batch.entry.nodes.now kept method result }
{
    let name = batch.method(method.node.unwrap() - kept).name;
    MemberFault::from((method.name, Rule::Members.at(name)))
}

// The number of the super-class of a class that is not Object.
fn super_class(class: u8, library: &Library) -> u8
    requires positive { 0 < class }
    requires known { class < length (contents library.now).classes }
    ensures extends { Extends (contents library.now).classes class result }
    ensures lower { result < class }
{
    parent_of(library.classes(), class).unwrap()
}

// Checks the declarations of the class at `p`, and gives it its members.
fn complete_class(
    batch: Shaped<'_>,
    p: usize,
    class: u8,
    kept: usize,
    library: &mut Library,
) -> Result<(), MemberFault>
    requires class { Is batch.nodes.now OneClass p }
    requires begins { Begins batch.nodes.now (contents library.old) kept class p }
    ensures rules { MatchResult result (λ _. Completes batch.entry.nodes.now kept (contents library.old) class p (contents library.new)) (λ f. BreaksMembers batch.entry.nodes.now kept (contents library.old) class p f) }
    ensures untouched { Untouched class (length (contents library.old).members) (contents library.old) (contents library.new) }
    ensures few { length (contents library.new).members + p ≤ length (contents library.old).members + end_of batch.entry.nodes.now p }
{
    let parts = batch.class(p);
    let parent = super_class(class, library);
    let site = Site {
        batch,
        class,
        parent,
        kept,
    };
    let first = library.member_count();
    declare_members::<Fields>(site, batch.elements(parts.fields), library)?;
    let middle = library.member_count();
    declare_members::<Methods>(site, batch.elements(parts.methods), library)?;
    let end = library.member_count();
    if let Some(method) = first_shared(
        library.members_between(middle, end),
        library.members_between(first, middle),
    ) {
        return Err(shared_name(batch, kept, method));
    }
    let cells = library.cells(parent) + (middle - first);
    library.finish_class(class, first, cells);
    Ok(())
}

// Checks the declarations of the classes in a list, in order. Their numbers begin at `number`, and the library kept so many
// nodes before those of the batch.
pub fn complete_classes(
    batch: Shaped<'_>,
    list: Span,
    number: u8,
    kept: usize,
    library: &mut Library,
) -> Result<(), BatchFault>
    requires { Numbered batch.nodes.now (contents library.old) kept number list.first list.end }
    ensures rules { MatchResult result (λ _. CompletesAll batch.entry.nodes.now kept list.end (contents library.old) number list.first (contents library.new)) (λ f. BreaksTwo batch.entry.nodes.now kept list.end (contents library.old) number list.first f) }
    ensures settled { SettledTwo batch.entry.nodes.now kept list.end (contents library.old) number list.first }
    ensures untouched { Untouched number (length (contents library.old).members) (contents library.old) (contents library.new) }
{
    // pass one goes over the classes alike; one loop for both would need a trait with laws longer than the two
    for (p, class) in batch.positions(list).zip(number..) {
        let within = InClass {
            pass: Pass::Two,
            class: batch.symbol(batch.class(p).name),
        };
        complete_class(batch, p, class, kept, library).map_err(|fault| (within, fault))?;
    }
    Ok(())
}
