// The types of the operators' results.
ghost use Rattle.std.specs.Prelude.{◌≡◌, Decides, MatchOption};
ghost use Rattle.values.specs.declared.types.«Type».{«Type» as Ty};
ghost use Rattle.types.specs.Operators.{UnaryTyped, ArithTyped, BinaryTyped, InstanceTyped, Reference, Number, Numbers, Both, Equatable};

use table::view::{BinaryOp, UnaryOp};
use values::types::Type;

// The type that a unary operator gives, if it treats the operand.
pub fn unary_type(op: UnaryOp, operand: Type) -> Option<Type>
    ensures result { MatchOption result ((v : Ty) → UnaryTyped op operand v → ⊥) (λ v. UnaryTyped op operand v) }
    ensures only { (v w : Ty) → UnaryTyped op operand v → UnaryTyped op operand w → v ≡ w }
{
    match op {
        UnaryOp::Minus => is_number(operand).then_some(operand),
        UnaryOp::Not => (operand == Type::Boolean).then_some(Type::Boolean),
    }
}

// The type that a binary operator gives, if it treats the operands.
#[rattlefmt::skip]
pub fn binary_type(op: BinaryOp, left: Type, right: Type) -> Option<Type>
    ensures result { MatchOption result ((v : Ty) → BinaryTyped op left right v → ⊥) (λ v. BinaryTyped op left right v) }
    ensures only { (v w : Ty) → BinaryTyped op left right v → BinaryTyped op left right w → v ≡ w }
{
    match op {
        BinaryOp::Plus | BinaryOp::Minus | BinaryOp::Multiply | BinaryOp::Divide => arith_type(left, right),
        BinaryOp::Modulo => both(left, right, Type::Int).then_some(Type::Int),
        BinaryOp::And | BinaryOp::Or => both(left, right, Type::Boolean).then_some(Type::Boolean),
        BinaryOp::Equals | BinaryOp::NotEquals => equatable(left, right).then_some(Type::Boolean),
        BinaryOp::Lower | BinaryOp::Greater | BinaryOp::LowerOrEquals | BinaryOp::GreaterOrEquals => numbers(left, right).then_some(Type::Boolean),
    }
}

// Whether it may be asked if a value of one type is an instance of the other.
pub fn allows_instance_of(value: Type, class: Type) -> bool
    ensures { Decides result (InstanceTyped value class) }
{
    matches!(class, Type::Class(_)) && is_reference(value)
}

// The type that arithmetic gives, if both operands are numbers.
fn arith_type(left: Type, right: Type) -> Option<Type>
    ensures { MatchOption result ((v : Ty) → ArithTyped left right v → ⊥) (λ v. ArithTyped left right v) }
{
    match (left, right) {
        (Type::Int, Type::Int) => Some(Type::Int),
        _ => numbers(left, right).then_some(Type::Float),
    }
}

// Whether Equals and NotEquals treat operands of these types.
fn equatable(left: Type, right: Type) -> bool
    ensures { Decides result (Equatable left right) }
{
    numbers(left, right)
        || both(left, right, Type::Boolean)
        || is_reference(left) && is_reference(right)
}

// Whether both types are numbers.
fn numbers(left: Type, right: Type) -> bool
    ensures { Decides result (Numbers left right) }
{
    is_number(left) && is_number(right)
}

// Whether both types are `wanted`.
fn both(left: Type, right: Type, wanted: Type) -> bool
    ensures { Decides result (Both wanted left right) }
{
    left == wanted && right == wanted
}

// Whether the type is one of numbers.
fn is_number(of: Type) -> bool
    ensures { Decides result (Number of) }
{
    matches!(of, Type::Int | Type::Float)
}

// Whether the type is one of references: a class, or null.
fn is_reference(of: Type) -> bool
    ensures { Decides result (Reference of) }
{
    matches!(of, Type::Class(_) | Type::Null)
}
