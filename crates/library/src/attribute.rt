// What the grammars say of one node.
use super::definition::Definition;
use values::types::Type;

#[derive(Clone, Copy)]
pub enum Attribute {
    // of a type name, and of an expression that is no Identifier
    Type(Type),
    // of an Identifier that is an expression, a field or a method
    Definition(Definition),
}
