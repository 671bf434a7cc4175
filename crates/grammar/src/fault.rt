// Broken rules: the fault of a rule inside the fault of its member, and that inside the fault of the batch.
ghost use Rattle.std.specs.Prelude.{◌≡◌, Some, None};
ghost use Rattle.grammar.specs.Faults.{rule_number, pass_number, broken};

// The rules that a batch can break.
#[derive(Clone, Copy)]
pub enum Rule {
    // a name in an expression stands for something that is in view there
    Identifier = 1,
    // a type name stands for a type
    TypeName = 2,
    // a class has a super-class that is declared before it, and a name of its own
    Class = 103,
    // no method of a class has the name of one of its fields
    Members = 203,
    // no two fields of a class have one name
    Fields = 204,
    // a field is not void, and hides at most a field
    Field = 205,
    // no two methods of a class have one name
    Methods = 206,
    // a method overrides at most a method, with the same parameters and a result that is a subtype
    Method = 207,
    // a parameter is not void
    Param = 209,
    // no two parameters of a method have one name
    Params = 312,
    // a variable is not void, and has a name that no parameter and no variable before it has
    Var = 317,
    // a void method returns nothing
    Return = 324,
    // a value goes only where its type may be assigned
    Assigned = 328,
    Condition = 329,
    Printed = 331,
    Binary = 333,
    Unary = 337,
    Cast = 339,
    InstanceOf = 340,
    New = 342,
    // there is no This in Main
    This = 343,
    // a field is selected from an object
    Selection = 365,
    // a protected field is selected in a subclass of its class, from an object of that subclass
    Protected = 366,
    // what stands alone or is assigned to is a field, a parameter or a variable
    Variable = 367,
    // what is selected is a field
    FieldName = 370,
    // a method is called on an object
    MethodCall = 371,
    // what is called is a method
    MethodName = 372,
    // no more arguments than parameters, and no fewer
    ExtraArgument = 373,
    MissingArgument = 374,
}

impl Rule {
    // Its fixed number, by which callers outside tell the rules: 100 times the pass and the rule's number in it, and 1 and 2 for
    // the rules of all passes.
    pub fn number(self) -> u16
        ensures { result ≡ rule_number self }
    {
        self as u16
    }

    // The rule, broken at a node.
    pub fn at(self, node: usize) -> RuleFault
        ensures { result ≡ broken self node }
    {
        RuleFault { rule: self, node }
    }
}

#[derive(Clone, Copy)]
pub enum Pass {
    One = 1,
    Two = 2,
    Three = 3,
}

impl Pass {
    // Its fixed number, by which callers outside tell the passes.
    pub fn number(self) -> u8
        ensures { result ≡ pass_number self }
    {
        self as u8
    }
}

// A broken rule and the node that it names, by its position in the batch.
#[derive(Clone, Copy)]
pub struct RuleFault {
    pub rule: Rule,
    pub node: usize,
}

// A fault with the symbol of the member around its node, if one is.
#[derive(Clone, Copy)]
pub struct MemberFault {
    pub member: Option<u16>,
    pub fault: RuleFault,
}

// A fault with its pass and the symbol of the class around its node, if one is.
#[derive(Clone, Copy)]
pub struct BatchFault {
    pub pass: Pass,
    pub class: Option<u16>,
    pub fault: MemberFault,
}

// Where in a batch a class is checked.
#[derive(Clone, Copy)]
pub struct InClass {
    pub pass: Pass,
    pub class: u16,
}

// A fault that no member is around.
impl From<RuleFault> for MemberFault {
    ghost from_gives = { λ e r. r ≡ record { member = None; fault = e } };

    fn from(fault: RuleFault) -> MemberFault {
        MemberFault {
            member: None,
            fault,
        }
    }
}

impl From<(u16, RuleFault)> for MemberFault {
    ghost from_gives = { λ e r. r ≡ record { member = Some e.0; fault = e.1 } };

    fn from(e: (u16, RuleFault)) -> MemberFault {
        MemberFault {
            member: Some(e.0),
            fault: e.1,
        }
    }
}

impl From<(InClass, MemberFault)> for BatchFault {
    ghost from_gives = { λ e r. r ≡ record { pass = e.0.pass; class = Some e.0.class; fault = e.1 } };

    fn from(e: (InClass, MemberFault)) -> BatchFault {
        BatchFault {
            pass: e.0.pass,
            class: Some(e.0.class),
            fault: e.1,
        }
    }
}
