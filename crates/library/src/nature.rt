// What a definition is of: a field, a variable, a method.
ghost use Rattle.std.specs.Prelude.{◌≡◌};
ghost use Rattle.library.specs.Natures.{is_field, is_variable};

use super::definition::Nature;

impl Nature {
    // Whether it is that of a field.
    pub fn is_field(self) -> bool
        ensures { result ≡ is_field self }
    {
        matches!(self, Nature::Field { .. })
    }

    // Whether it is that of a field, a parameter or a variable.
    pub fn is_variable(self) -> bool
        ensures { result ≡ is_variable self }
    {
        !matches!(self, Nature::Method(_))
    }
}
