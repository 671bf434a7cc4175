// Pass two: the methods of a class.
ghost use Rattle.std.specs.Prelude.{◌≡◌, List, [], Decides, MatchResult};
ghost use Rattle.table.specs.declared.kinds.Class.TheVariants.{OneMethod, OneParam};
ghost use Rattle.values.specs.declared.types.«Type».{«Type» as Ty};
ghost use Rattle.parts.specs.Parts.{Is};
ghost use Rattle.library.specs.Signatures.{signature};
ghost use Rattle.library.specs.Contents.{contents};
ghost use Rattle.grammar.specs.Ready.{FewParams};
ghost use Rattle.grammar.specs.declared.fault.Rule.TheVariants.{Methods as MethodsRule};
ghost use Rattle.grammar.specs.PassTwo.{ParamIs, ParamsAre, Overrides, MayOverride, MethodIs, MethodNamed, BreaksParam, BreaksParams, BreaksMethod};

use super::fault::{Rule, RuleFault};
use super::members::MemberKind;
use super::site::{Site, type_at};
use library::definition::{Definition, Nature, Signature};
use library::held::Library;
use library::member::Member;
use parts::{Shaped, Span};
use types::hierarchy::Hierarchy;
use values::types::Type;

// The type of the parameter at `p`.
fn param(batch: Shaped<'_>, p: usize, library: &Library) -> Result<Type, RuleFault>
    requires { Is batch.nodes.now OneParam p }
    ensures { MatchResult result (λ t. ParamIs batch.entry.nodes.now (contents library.now).classes p t) (λ f. BreaksParam batch.entry.nodes.now (contents library.now).classes p f) }
{
    let parts = batch.param(p);
    let of = type_at(batch, parts.of, library)?;
    if of == Type::Void {
        return Err(Rule::Param.at(p));
    }
    Ok(of)
}

// The types of the parameters in a list.
fn params(batch: Shaped<'_>, list: Span, library: &Library) -> Result<Signature, RuleFault>
    requires { FewParams batch.nodes.now list.first list.end }
    ensures { MatchResult result (λ s. (ts : List Ty) × (s ≡ signature ts) × ParamsAre batch.entry.nodes.now (contents library.now).classes list.end [] list.first ts) (λ f. BreaksParams batch.entry.nodes.now (contents library.now).classes list.end list.first f) }
{
    let mut types = Signature::empty();
    for p in batch.positions(list) {
        types = types.with(param(batch, p, library)?);
    }
    Ok(types)
}

// The condition on an override, and the one place that has it: equal parameters, and a result that is a subtype.
fn overrides(
    hierarchy: Hierarchy<'_>,
    params: Signature,
    returns: Type,
    inherited: Signature,
    inherited_returns: Type,
) -> bool
    ensures { Decides result (Overrides hierarchy.entry.classes.now params returns inherited inherited_returns) }
{
    params.equals(inherited) && hierarchy.is_subtype(returns, inherited_returns)
}

// Whether a method may override what is inherited under its name.
fn may_override(
    hierarchy: Hierarchy<'_>,
    params: Signature,
    returns: Type,
    inherited: Option<Member>,
) -> bool
    ensures { Decides result (MayOverride hierarchy.entry.classes.now params returns inherited) }
{
    let Some(member) = inherited else { return true };
    match member.definition.nature {
        Nature::Method(others) => {
            overrides(hierarchy, params, returns, others, member.definition.of)
        }
        Nature::Param | Nature::Var | Nature::Field { .. } => false,
    }
}

// The methods of a class.
pub struct Methods;

impl MemberKind for Methods {
    ghost class = { OneMethod };

    ghost named = { MethodNamed };

    ghost is = { λ T x i p m. MethodIs T x p m };

    ghost breaks = { λ T x p f. BreaksMethod T x p f };

    ghost REPEATED = { MethodsRule };

    const REPEATED: Rule = Rule::Methods;

    fn identifier(batch: Shaped<'_>, p: usize) -> usize {
        batch.method(p).name
    }

    fn declared(
        site: Site<'_>,
        p: usize,
        _before: usize,
        library: &Library,
    ) -> Result<Member, RuleFault> {
        let parts = site.batch.method(p);
        let of = type_at(site.batch, parts.result, library)?;
        let types = params(site.batch, site.batch.elements(parts.params), library)?;
        let name = site.batch.symbol(parts.name);
        if !may_override(
            library.hierarchy(),
            types,
            of,
            library.member_named(site.parent, name),
        ) {
            return Err(Rule::Method.at(p));
        }
        Ok(Member {
            name,
            definition: Definition {
                nature: Nature::Method(types),
                of,
            },
            node: Some(site.kept + p),
        })
    }
}
