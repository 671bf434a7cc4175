// What is in view where an expression stands.
ghost use Rattle.std.specs.Prelude.{◌≡◌, Decides, MatchResult, None, Some};
ghost use Rattle.table.specs.declared.kinds.Class.TheVariants.{Name};
ghost use Rattle.parts.specs.Parts.{Is, symbol_at};
ghost use Rattle.values.specs.declared.types.«Type».TheVariants.{Class as ClassType};
ghost use Rattle.types.specs.Subtypes.{Subtype};
ghost use Rattle.library.specs.Environments.{type_env};
ghost use Rattle.grammar.specs.Faults.{broken};
ghost use Rattle.grammar.specs.PassTwo.{Names};
ghost use Rattle.grammar.specs.declared.fault.Rule.TheVariants.{Identifier, TypeName};
ghost use Rattle.typing.specs.Settings.{in_view};
ghost use Rattle.typing.specs.Expressions.{Selects};
ghost use Rattle.typing.specs.Checking.{batch, around};

use super::checker::Checker;
use grammar::fault::{Rule, RuleFault};
use grammar::site::type_at;
use library::definition::{Definition, Nature, Visibility};
use library::member::Member;
use names::find;
use types::hierarchy::Hierarchy;
use values::types::Type;

impl Checker<'_> {
    pub(crate) fn hierarchy(&self) -> Hierarchy<'_>
        ensures { result.classes.now ≡ (around self.now).classes }
    {
        self.library.hierarchy()
    }

    // The type that the name at `p` stands for.
    pub(crate) fn type_at(&self, p: usize) -> Result<Type, RuleFault>
        requires { Is (batch self.now) Name p }
        ensures { MatchResult result (λ t. Names (batch self.now) (around self.now).classes p t) (λ f. (type_env (around self.now).classes (symbol_at (batch self.now) p) ≡ None) × (f ≡ broken TypeName p)) }
    {
        type_at(self.scene.batch, p, self.library)
    }

    // What a name stands for: a parameter or variable, or else a member of the class around.
    pub(crate) fn definition_named(&self, name: u16) -> Option<Definition>
        ensures { result ≡ in_view (around self.now) name }
    {
        if let Some(local) = find(self.scene.locals, name) {
            return Some(local.definition);
        }
        let class = self.scene.class?;
        let member = self.library.member_named(class, name)?;
        Some(member.definition)
    }

    // The member of a class that the Identifier at `p` names.
    pub(crate) fn member_at(&self, class: u8, p: usize) -> Result<Member, RuleFault>
        requires { Is (batch self.now) Name p }
        ensures { MatchResult result (λ m. (around self.now).members class (symbol_at (batch self.now) p) ≡ Some m) (λ f. ((around self.now).members class (symbol_at (batch self.now) p) ≡ None) × (f ≡ broken Identifier p)) }
    {
        let name = self.scene.batch.symbol(p);
        self.library
            .member_named(class, name)
            .ok_or(Rule::Identifier.at(p))
    }

    // Whether a protected field of the class `declaring` may be selected in the class `here` from an object of the class `object`.
    fn is_inside(&self, here: u8, object: u8, declaring: u8) -> bool
        ensures { Decides result (Subtype (around self.now).classes (ClassType object) (ClassType here) × Subtype (around self.now).classes (ClassType here) (ClassType declaring)) }
    {
        let classes = self.hierarchy();
        classes.is_subtype(Type::Class(object), Type::Class(here))
            && classes.is_subtype(Type::Class(here), Type::Class(declaring))
    }

    // Whether a field may be selected from an object of the class `object`, in the class around or in Main.
    pub(crate) fn may_select(&self, object: u8, nature: Nature) -> bool
        ensures { Decides result (Selects (around self.now).classes (around self.now).class object nature) }
    {
        let Nature::Field {
            visibility,
            class,
            ..
        } = nature
        else {
            return false;
        };
        match (visibility, self.scene.class) {
            (Visibility::Public, _) => true,
            (Visibility::Protected, Some(here)) => self.is_inside(here, object, class),
            (Visibility::Protected, None) => false,
        }
    }
}
