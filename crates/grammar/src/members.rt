// The members of a class, declared one behind the other: its fields, or its methods.
ghost use Rattle.std.specs.Prelude.{◌≡◌, ℕ, ◌+◌, ◌<◌, ◌≤◌, List, [], ◌∷◌, length, drop, None, MatchResult};
ghost use Rattle.table.specs.declared.kinds.Class.{Class};
ghost use Rattle.table.specs.declared.kinds.Class.TheVariants.{Name};
ghost use Rattle.table.specs.declared.kinds.Node.{Node as OneNode};
ghost use Rattle.names.specs.Env.{lookup};
ghost use Rattle.parts.specs.Parts.{Is, RowOf};
ghost use Rattle.library.specs.declared.member.Member.{Member as MemberT};
ghost use Rattle.library.specs.Members.{called};
ghost use Rattle.library.specs.Contents.{contents, more_members, added};
ghost use Rattle.grammar.specs.declared.fault.Rule.{Rule as OneRule};
ghost use Rattle.grammar.specs.declared.fault.RuleFault.{RuleFault as OneFault};
ghost use Rattle.grammar.specs.Sites.{scope_at, ReadyAt};
ghost use Rattle.grammar.specs.Members.{MembersAre, MemberBreaks, MembersBreak};
ghost use Rattle.grammar.specs.PassTwo.{Scope};

use super::fault::{MemberFault, Rule, RuleFault};
use super::site::Site;
use library::held::Library;
use library::member::Member;
use names::find;
use parts::{Shaped, Span};

// A kind of members.
pub trait MemberKind {
    // what stands where one is declared
    ghost class: { Class };

    // which place has the Identifier of the one at a place
    ghost named: { List OneNode → ℕ → ℕ → Type 0 };

    // which member is declared, behind so many others of its kind, at a place
    ghost is: { List OneNode → Scope → ℕ → ℕ → MemberT → Type 0 };

    // how the one at a place breaks a rule first
    ghost breaks: { List OneNode → Scope → ℕ → OneFault → Type 0 };

    ghost REPEATED: { OneRule };

    // The rule that a second member of one name breaks.
    const REPEATED: Rule;

    // The Identifier of the one that is declared at `p`.
    fn identifier(batch: Shaped<'_>, p: usize) -> usize
        requires { Is batch.nodes.now class p }
        ensures named { named batch.entry.nodes.now p result }
        ensures name { Is batch.entry.nodes.now Name result };

    // The member that is declared at `p`, behind so many others of its kind.
    fn declared(
        site: Site<'_>,
        p: usize,
        before: usize,
        library: &Library,
    ) -> Result<Member, RuleFault>
        requires ready { ReadyAt (contents library.now) site }
        requires class { Is site.batch.nodes.now class p }
        requires before { before ≤ 1024 }
        ensures { MatchResult result (λ m. is site.entry.batch.nodes.now (scope_at (contents library.now) site.entry) before p m) (λ f. breaks site.entry.batch.nodes.now (scope_at (contents library.now) site.entry) p f) };
}

// That a library is ready for a site stays a clause here and no type: what is declared lends the library to be read, what is added lends
// it to be written, and a struct of both would hold it for one call.
// Declares the member at `p`, with its Identifier at `place`, unless one from `first` on has its name already.
fn declare_member<K: MemberKind>(
    site: Site<'_>,
    p: usize,
    place: usize,
    first: usize,
    library: &mut Library,
) -> Result<(), RuleFault>
    requires ready { ReadyAt (contents library.old) site }
    requires class { Is site.batch.nodes.now K.class p }
    requires first { first ≤ length (contents library.old).members }
    requires before { length (contents library.old).members ≤ first + 1024 }
    requires room { length (contents library.old).members < length (contents library.old).nodes + 1 }
    ensures { MatchResult result (λ _. (m : MemberT) × K.is site.entry.batch.nodes.now (scope_at (contents library.old) site.entry) (length (drop first (contents library.old).members)) p m × (lookup called (drop first (contents library.old).members) m.name ≡ None) × (contents library.new ≡ more_members (contents library.old) (m ∷ []))) (λ f. MemberBreaks K.REPEATED (K.is site.entry.batch.nodes.now (scope_at (contents library.old) site.entry)) (K.breaks site.entry.batch.nodes.now (scope_at (contents library.old) site.entry)) (drop first (contents library.old).members) p place f × (contents library.new ≡ contents library.old)) }
{
    let end = library.member_count();
    let member = K::declared(site, p, end - first, library)?;
    if find(library.members_between(first, end), member.name).is_some() {
        return Err(K::REPEATED.at(place));
    }
    library.add_member(member);
    Ok(())
}

// Declares the members of one kind of a class, in order: each is the disjoint union of those before it with one definition more.
pub fn declare_members<K: MemberKind>(
    site: Site<'_>,
    list: Span,
    library: &mut Library,
) -> Result<(), MemberFault>
    requires ready { ReadyAt (contents library.old) site }
    requires row { RowOf site.batch.nodes.now K.class list.first list.end }
    requires room { length (contents library.old).members ≤ site.kept + list.first }
    ensures rules { MatchResult result (λ _. MembersAre site.entry.batch.nodes.now (K.is site.entry.batch.nodes.now (scope_at (contents library.old) site.entry)) list.end [] list.first (added (contents library.old) (contents library.new))) (λ f. MembersBreak site.entry.batch.nodes.now K.REPEATED (K.named site.entry.batch.nodes.now) (K.is site.entry.batch.nodes.now (scope_at (contents library.old) site.entry)) (K.breaks site.entry.batch.nodes.now (scope_at (contents library.old) site.entry)) list.end [] list.first f) }
    ensures grows { contents library.new ≡ more_members (contents library.old) (added (contents library.old) (contents library.new)) }
    ensures few { length (contents library.new).members + list.first ≤ length (contents library.old).members + list.end }
{
    let first = library.member_count();
    for p in site.batch.positions(list) {
        let place = K::identifier(site.batch, p);
        let name = site.batch.symbol(place);
        declare_member::<K>(site, p, place, first, library).map_err(|fault| (name, fault))?;
    }
    Ok(())
}
