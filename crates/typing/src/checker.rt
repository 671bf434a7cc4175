// What expressions are checked with.
ghost use Rattle.typing.specs.Checked.{Ready};
ghost use Rattle.typing.specs.OneReady.{Ready-prop};
ghost use Rattle.library.specs.Contents.{contents};

use super::local::Local;
use library::attribute::Attribute;
use library::definition::Definition;
use library::held::Library;
use parts::Shaped;
use values::types::Type;

// Where an expression stands: the batch, the parameters and variables in view, the class around, none in Main, and how many nodes the
// library kept before the batch.
#[derive(Clone, Copy)]
pub struct Scene<'a> {
    pub batch: Shaped<'a>,
    pub locals: &'a [Local],
    pub class: Option<u8>,
    pub kept: usize,
}

// A library that keeps the batch of a scene, and takes the attributes of its nodes. A `&mut self` may change the scene too, so each
// such call says by `Stays` that only what the library holds has changed.
#[derive(Drop)]
pub struct Checker<'a> {
    pub scene: Scene<'a>,
    pub library: &'a mut Library,
    pub ghost ready: { Ready scene.batch.nodes.now (contents library.now) scene.kept scene.class } by { Ready-prop scene.batch.nodes.now (contents library.now) scene.kept scene.class },
}

impl Checker<'_> {
    ghost use Rattle.std.specs.Prelude.{◌≡◌, ◌<◌, [], ◌∷◌, length};
    ghost use Rattle.typing.specs.Settings.{with_log};
    ghost use Rattle.typing.specs.Expressions.{typed, defined};
    ghost use Rattle.typing.specs.Checking.{batch, held, Stays};

    // Gives the node at `p` an attribute.
    fn give(&mut self, p: usize, attribute: Attribute)
        requires { p < length (batch self.old) }
        ensures stays { Stays self.old self.new }
        ensures left { held self.new ≡ with_log self.old.scene.kept ((p, attribute) ∷ []) (held self.old) }
    {
        let place = self.scene.kept + p;
        self.library.note(place, Some(attribute));
    }

    // Notes the type of the node at `p`, and hands it on.
    pub(crate) fn note(&mut self, p: usize, of: Type) -> Type
        requires { p < length (batch self.old) }
        ensures stays { Stays self.old self.new }
        ensures left { held self.new ≡ with_log self.old.scene.kept (typed p of) (held self.old) }
        ensures same { result ≡ of }
    {
        self.give(p, Attribute::Type(of));
        of
    }

    // Notes what the Identifier at `p` stands for.
    pub(crate) fn define(&mut self, p: usize, found: Definition)
        requires { p < length (batch self.old) }
        ensures stays { Stays self.old self.new }
        ensures left { held self.new ≡ with_log self.old.scene.kept (defined p found) (held self.old) }
    {
        self.give(p, Attribute::Definition(found));
    }
}
