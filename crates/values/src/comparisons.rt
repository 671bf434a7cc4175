// The operators that compare two values of one type.
ghost use Rattle.std.specs.Prelude.{◌≡◌};
ghost use Rattle.values.specs.Operators.{comparison_result, equality_result};

use super::operators::Stop;
use super::value::Value;
use table::view::BinaryOp;

// For operands that have an order.
pub fn on_comparison<T: PartialOrd>(op: BinaryOp, x: &T, y: &T) -> Result<Value, Stop>
    ensures { result ≡ comparison_result T.eq T.partial_cmp op x.now y.now }
{
    match op {
        BinaryOp::Greater => Ok(Value::Boolean(x > y)),
        BinaryOp::GreaterOrEquals => Ok(Value::Boolean(x >= y)),
        BinaryOp::Lower => Ok(Value::Boolean(x < y)),
        BinaryOp::LowerOrEquals => Ok(Value::Boolean(x <= y)),
        _ => on_equality(op, x == y),
    }
}

// For operands that are only equal or not.
pub fn on_equality(op: BinaryOp, equal: bool) -> Result<Value, Stop>
    ensures { result ≡ equality_result op equal }
{
    match op {
        BinaryOp::Equals => Ok(Value::Boolean(equal)),
        BinaryOp::NotEquals => Ok(Value::Boolean(!equal)),
        _ => Err(Stop::Untreated),
    }
}
