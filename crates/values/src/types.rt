// Declared types, and the value that a variable of each starts with.
ghost use Rattle.std.specs.Prelude.{◌≡◌};
ghost use Rattle.values.specs.Types.{zero_value, widened_value};

use super::value::Value;

#[derive(Clone, Copy, PartialEq, Eq)]
pub enum Type {
    Void,
    Boolean,
    Float,
    Int,
    String,
    Null,
    // a class, by its number
    Class(u8),
}

// What a variable or a field of the type holds before anything is stored in it.
pub fn zero_of(declared: Type) -> Value
    ensures { result ≡ zero_value declared }
{
    match declared {
        Type::Int => Value::Int(0),
        Type::Float => Value::Float(0.0),
        Type::Boolean => Value::Boolean(false),
        Type::Void | Type::String | Type::Null | Type::Class(_) => Value::Null,
    }
}

// The value as it is stored where a float is declared.
pub fn widened(value: Value) -> Value
    ensures { result ≡ widened_value value }
{
    match value {
        Value::Int(x) => Value::Float(f64::from(x)),
        other => other,
    }
}
