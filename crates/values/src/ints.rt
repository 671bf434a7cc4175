// Binary operators on two ints.
ghost use Rattle.std.specs.Prelude.{◌≡◌};
ghost use Rattle.values.specs.Numbers.{divisor};
ghost use Rattle.values.specs.Operators.{int_result};

use super::comparisons::on_comparison;
use super::operators::Stop;
use super::value::Value;
use table::view::BinaryOp;

pub fn on_ints(op: BinaryOp, x: i32, y: i32) -> Result<Value, Stop>
    ensures { result ≡ int_result op x y }
{
    match op {
        BinaryOp::Plus => Ok(Value::Int(x.wrapping_add(y))),
        BinaryOp::Minus => Ok(Value::Int(x.wrapping_sub(y))),
        BinaryOp::Multiply => Ok(Value::Int(x.wrapping_mul(y))),
        BinaryOp::Divide => Ok(Value::Int(x.wrapping_div(divisor(y)?))),
        BinaryOp::Modulo => Ok(Value::Int(x.wrapping_rem(divisor(y)?))),
        _ => on_comparison(op, &x, &y),
    }
}

// A number to divide by, which is any but 0.
fn divisor(y: i32) -> Result<i32, Stop>
    ensures { result ≡ divisor y }
{
    if y == 0 {
        Err(Stop::ZeroDivisor)
    } else {
        Ok(y)
    }
}
