// A chain of three classes, and the operators on a few pairs of types.
use super::class::Class;
use super::hierarchy::Hierarchy;
use super::operators::{allows_instance_of, binary_type, unary_type};
use table::view::{BinaryOp, UnaryOp};
use values::types::Type;

#[rattlefmt::skip]
const CHAIN: [Class; 3] = [
    Class { name: 5, number: 0, parent: None },
    Class { name: 6, number: 1, parent: Some(0) },
    Class { name: 7, number: 2, parent: Some(1) },
];

#[test]
fn subtypes(rt: HostRuntime) {
    let chain = Hierarchy { classes: &CHAIN };
    for (lower, upper, expected) in [
        (Type::Class(2), Type::Class(0), true),
        (Type::Class(1), Type::Class(2), false),
        (Type::Class(3), Type::Class(0), false),
        (Type::Class(3), Type::Class(3), true),
        (Type::Null, Type::Class(2), true),
        (Type::Null, Type::Class(3), false),
        (Type::Int, Type::Float, false),
    ] {
        assert!(rt; chain.is_subtype(lower, upper) == expected);
    }
}

#[test]
fn conversions(rt: HostRuntime) {
    let chain = Hierarchy { classes: &CHAIN };
    for (from, to, assigned, cast) in [
        (Type::Int, Type::Float, true, true),
        (Type::Float, Type::Int, false, true),
        (Type::Class(2), Type::Class(0), true, true),
        (Type::Class(0), Type::Class(2), false, true),
        (Type::Void, Type::Void, true, false),
        (Type::Boolean, Type::Int, false, false),
    ] {
        assert!(rt; chain.is_assignable(to, from) == assigned);
        assert!(rt; chain.is_castable(from, to) == cast);
    }
}

#[test]
fn operators(rt: HostRuntime) {
    let boolean = Some(Type::Boolean);
    for (op, left, right, expected) in [
        (BinaryOp::Plus, Type::Int, Type::Int, Some(Type::Int)),
        (BinaryOp::Divide, Type::Int, Type::Float, Some(Type::Float)),
        (BinaryOp::Modulo, Type::Int, Type::Float, None),
        (BinaryOp::Lower, Type::Float, Type::Int, boolean),
        (BinaryOp::Lower, Type::Boolean, Type::Boolean, None),
        (BinaryOp::Equals, Type::Null, Type::Class(1), boolean),
        (BinaryOp::Equals, Type::Null, Type::Int, None),
        (BinaryOp::And, Type::Boolean, Type::Boolean, boolean),
    ] {
        assert!(rt; binary_type(op, left, right) == expected);
    }
    assert!(rt; unary_type(UnaryOp::Minus, Type::Float) == Some(Type::Float));
    assert!(rt; unary_type(UnaryOp::Not, Type::Int) == None);
    assert!(rt; allows_instance_of(Type::Null, Type::Class(1)));
    assert!(rt; !allows_instance_of(Type::Class(1), Type::Null));
}
