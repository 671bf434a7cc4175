// Pass two: the fields of a class.
ghost use Rattle.std.specs.Prelude.{◌≡◌, Decides};
ghost use Rattle.table.specs.declared.kinds.Class.TheVariants.{OneField};
ghost use Rattle.grammar.specs.declared.fault.Rule.TheVariants.{Fields as FieldsRule};
ghost use Rattle.grammar.specs.PassTwo.{visible, Hides, FieldIs, FieldNamed, BreaksField};

use super::fault::{Rule, RuleFault};
use super::members::MemberKind;
use super::site::{Site, type_at};
use library::definition::{Definition, Nature, Visibility};
use library::held::Library;
use library::member::Member;
use parts::Shaped;
use values::types::Type;

// The visibility of a field, by whether it is protected. A function and no `From<bool>`, which would not show what true
// stands for.
fn visibility(protected: bool) -> Visibility
    ensures { result ≡ visible protected }
{
    if protected {
        Visibility::Protected
    } else {
        Visibility::Public
    }
}

// Whether a field may hide what is inherited under its name.
fn may_hide(inherited: Option<Member>) -> bool
    ensures { Decides result (Hides inherited) }
{
    inherited.is_none_or(|member| member.definition.nature.is_field())
}

// The fields of a class.
pub struct Fields;

impl MemberKind for Fields {
    ghost class = { OneField };

    ghost named = { FieldNamed };

    ghost is = { λ T x i p m. FieldIs T x i p m };

    ghost breaks = { λ T x p f. BreaksField T x p f };

    ghost REPEATED = { FieldsRule };

    const REPEATED: Rule = Rule::Fields;

    fn identifier(batch: Shaped<'_>, p: usize) -> usize {
        batch.field(p).name
    }

    fn declared(
        site: Site<'_>,
        p: usize,
        before: usize,
        library: &Library,
    ) -> Result<Member, RuleFault> {
        let parts = site.batch.field(p);
        let of = type_at(site.batch, parts.of, library)?;
        let name = site.batch.symbol(parts.name);
        if of == Type::Void || !may_hide(library.member_named(site.parent, name)) {
            return Err(Rule::Field.at(p));
        }
        let nature = Nature::Field {
            visibility: visibility(parts.protected),
            class: site.class,
            cell: library.cells(site.parent) + before,
        };
        Ok(Member {
            name,
            definition: Definition { nature, of },
            node: Some(site.kept + p),
        })
    }
}
