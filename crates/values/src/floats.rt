// Binary operators on two floats, which round once to binary64.
ghost use Rattle.std.specs.Prelude.{◌≡◌};
ghost use Rattle.values.specs.Operators.{float_result};

use super::comparisons::on_comparison;
use super::operators::Stop;
use super::value::Value;
use table::view::BinaryOp;

pub fn on_floats(op: BinaryOp, x: f64, y: f64) -> Result<Value, Stop>
    ensures { result ≡ float_result op x y }
{
    match op {
        BinaryOp::Plus => Ok(Value::Float(x + y)),
        BinaryOp::Minus => Ok(Value::Float(x - y)),
        BinaryOp::Multiply => Ok(Value::Float(x * y)),
        BinaryOp::Divide => Ok(Value::Float(x / y)),
        _ => on_comparison(op, &x, &y),
    }
}
