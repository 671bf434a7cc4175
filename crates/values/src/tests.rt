// The edges of the rules for numbers, executed.
use super::casts::whole_part;
use super::operators::{Stop, binary};
use super::value::Value;
use std::test::Fail;
use table::view::BinaryOp;

const LOWEST: Value = Value::Int(i32::MIN);

const HIGHEST: Value = Value::Int(i32::MAX);

const ZERO: Value = Value::Float(0.0);

fn int(answer: Result<Value, Stop>) -> Option<i32> {
    match answer {
        Ok(Value::Int(x)) => Some(x),
        _ => None,
    }
}

fn boolean(answer: Result<Value, Stop>) -> Option<bool> {
    match answer {
        Ok(Value::Boolean(x)) => Some(x),
        _ => None,
    }
}

#[test]
fn ints(rt: HostRuntime) {
    for (op, left, right, expected) in [
        (BinaryOp::Plus, HIGHEST, Value::Int(1), Some(i32::MIN)),
        (BinaryOp::Minus, LOWEST, Value::Int(1), Some(i32::MAX)),
        (BinaryOp::Multiply, HIGHEST, HIGHEST, Some(1)),
        (BinaryOp::Divide, LOWEST, Value::Int(-1), Some(i32::MIN)),
        (BinaryOp::Divide, Value::Int(7), Value::Int(-2), Some(-3)),
        (BinaryOp::Modulo, Value::Int(7), Value::Int(-2), Some(1)),
        (BinaryOp::Modulo, LOWEST, Value::Int(-1), Some(0)),
        (BinaryOp::Modulo, LOWEST, Value::Int(0), None),
    ] {
        assert_eq!(rt; int(binary(op, left, right)), expected);
    }
}

#[test]
fn comparisons(rt: HostRuntime) -> Result<(), Fail> {
    let Ok(nan) = binary(BinaryOp::Divide, ZERO, ZERO) else {
        return Err(Fail::new("no value"));
    };
    for (op, left, right, expected) in [
        (BinaryOp::Equals, nan, nan, Some(false)),
        (BinaryOp::NotEquals, nan, nan, Some(true)),
        (BinaryOp::LowerOrEquals, nan, HIGHEST, Some(false)),
        (BinaryOp::GreaterOrEquals, HIGHEST, nan, Some(false)),
        (BinaryOp::Equals, ZERO, Value::Float(-0.0), Some(true)),
        (BinaryOp::Greater, HIGHEST, ZERO, Some(true)),
        (BinaryOp::Equals, Value::Null, Value::Null, Some(true)),
        (BinaryOp::Equals, Value::Null, Value::Record(0), Some(false)),
        (BinaryOp::Modulo, ZERO, ZERO, None),
    ] {
        assert_eq!(rt; boolean(binary(op, left, right)), expected);
    }
    Ok(())
}

#[test]
fn casts(rt: HostRuntime) {
    for (float, expected) in [
        (2147483648.0, None),
        (-2147483648.9, Some(i32::MIN)),
        (1.0 / 0.0, None),
        (-1.0 / 0.0, None),
        (0.0 / 0.0, None),
    ] {
        assert_eq!(rt; whole_part(float), expected);
    }
}
