// What a field reads as.
ghost use Rattle.std.specs.Prelude.{◌≡◌, ◌<◌, ◌-◌};
ghost use Rattle.lt_inputs.specs.Fields.{int_of, bool_of, field_value};

use lt_base::{Ty, Value, number_up_to};

/// The int of an optional minus and digits.
pub fn int(field: &[u8]) -> Option<i64>
    ensures { result ≡ int_of field.now }
{
    match field {
        [] => None,
        [b'-', digits @ ..] => {
            let n = number_up_to(digits, 1 << 63)?;
            if n == 1 << 63 {
                Some(i64::MIN)
            } else {
                Some(-(n as i64))
            }
        }
        _ => Some(number_up_to(field, i64::MAX as u64)? as i64),
    }
}

/// The truth value of its word.
pub fn truth(field: &[u8]) -> Option<bool>
    ensures { result ≡ bool_of field.now }
{
    match field {
        b"true" => Some(true),
        b"false" => Some(false),
        _ => None,
    }
}

/// The value of a type.
pub fn value(ty: Ty, field: &[u8]) -> Option<Value>
    ensures { result ≡ field_value ty field.now }
{
    match ty {
        Ty::Int => Some(Value::Int(int(field)?)),
        Ty::Bool => Some(Value::Bool(truth(field)?)),
    }
}
