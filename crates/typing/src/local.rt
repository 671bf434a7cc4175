// Parameters and variables in view.
ghost use Rattle.typing.specs.Views.{local_name};

use library::definition::Definition;
use names::Named;

#[derive(Clone, Copy)]
pub struct Local {
    pub name: u16,
    pub definition: Definition,
}

impl Named for Local {
    ghost symbol = { local_name };

    fn name(&self) -> u16 {
        self.name
    }
}
