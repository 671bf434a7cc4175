// The operators on values.
ghost use Rattle.std.specs.Prelude.{◌≡◌};
ghost use Rattle.values.specs.Operators.{boolean_result, binary_result, unary_result};

use super::comparisons::on_equality;
use super::floats::on_floats;
use super::ints::on_ints;
use super::pairs::{Pair, pair_of};
use super::value::Value;
use table::view::{BinaryOp, UnaryOp};

// Why an operator gives no value.
#[derive(Clone, Copy)]
pub enum Stop {
    ZeroDivisor,
    // the operator does not treat operands of these kinds
    Untreated,
}

pub fn binary(op: BinaryOp, left: Value, right: Value) -> Result<Value, Stop>
    ensures { result ≡ binary_result op left right }
{
    match pair_of(left, right).ok_or(Stop::Untreated)? {
        Pair::Ints(x, y) => on_ints(op, x, y),
        Pair::Floats(x, y) => on_floats(op, x, y),
        Pair::Booleans(x, y) => on_booleans(op, x, y),
        Pair::References(x, y) => on_equality(op, x == y),
    }
}

pub fn unary(op: UnaryOp, operand: Value) -> Result<Value, Stop>
    ensures { result ≡ unary_result op operand }
{
    match (op, operand) {
        (UnaryOp::Minus, Value::Int(x)) => Ok(Value::Int(x.wrapping_neg())),
        (UnaryOp::Minus, Value::Float(x)) => Ok(Value::Float(-x)),
        (UnaryOp::Not, Value::Boolean(x)) => Ok(Value::Boolean(!x)),
        _ => Err(Stop::Untreated),
    }
}

fn on_booleans(op: BinaryOp, x: bool, y: bool) -> Result<Value, Stop>
    ensures { result ≡ boolean_result op x y }
{
    match op {
        BinaryOp::And => Ok(Value::Boolean(x && y)),
        BinaryOp::Or => Ok(Value::Boolean(x || y)),
        _ => on_equality(op, x == y),
    }
}
