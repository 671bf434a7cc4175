// The two operands of a binary operator, told apart once by what an operator can treat.
ghost use Rattle.std.specs.Prelude.{◌≡◌};
ghost use Rattle.values.specs.Operators.{pair_of};

use super::value::Value;

pub enum Pair {
    Ints(i32, i32),
    // two numbers of which one at least is a float: an int has become the equal float
    Floats(f64, f64),
    Booleans(bool, bool),
    // null, or a record by its number
    References(Option<u16>, Option<u16>),
}

// None where no operator treats the two together.
pub fn pair_of(left: Value, right: Value) -> Option<Pair>
    ensures { result ≡ pair_of left right }
{
    let pair = match (left, right) {
        (Value::Int(x), Value::Int(y)) => Pair::Ints(x, y),
        (Value::Int(x), Value::Float(y)) => Pair::Floats(f64::from(x), y),
        (Value::Float(x), Value::Int(y)) => Pair::Floats(x, f64::from(y)),
        (Value::Float(x), Value::Float(y)) => Pair::Floats(x, y),
        (Value::Boolean(x), Value::Boolean(y)) => Pair::Booleans(x, y),
        (Value::Null, Value::Null) => Pair::References(None, None),
        (Value::Null, Value::Record(y)) => Pair::References(None, Some(y)),
        (Value::Record(x), Value::Null) => Pair::References(Some(x), None),
        (Value::Record(x), Value::Record(y)) => Pair::References(Some(x), Some(y)),
        _ => return None,
    };
    Some(pair)
}
