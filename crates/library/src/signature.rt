// Signatures, made one parameter at a time and compared.
ghost use Rattle.std.specs.Prelude.{◌≡◌, ◌<◌, List, [], ◌∷◌, ◌++◌, Decides};
ghost use Rattle.values.specs.declared.types.«Type».{«Type» as Ty};
ghost use Rattle.library.specs.Signatures.{signature};

use super::definition::Signature;
use values::types::Type;

impl Signature {
    pub fn empty() -> Signature
        ensures { result ≡ signature [] }
    {
        Signature {
            count: 0,
            types: [Type::Void; 8],
        }
    }

    // With one parameter more.
    pub fn with(self, of: Type) -> Signature
        requires { self.count < 8 }
        ensures { (ts : List Ty) → self ≡ signature ts → result ≡ signature (ts ++ of ∷ []) }
    {
        let mut longer = self;
        longer.types[longer.count] = of;
        longer.count += 1;
        longer
    }

    // Beside `==`, which the check does not know to mean that the two are one.
    pub fn equals(self, other: Signature) -> bool
        ensures { Decides result (self ≡ other) }
    {
        self == other
    }
}
