// An entity's value out of its kind and its eight bytes, and two values compared.
ghost use Rattle.std.specs.Prelude.{◌≡◌, ◌&&◌, eqb};
ghost use Rattle.paper.specs.Answers.{value_of, is_same_value};
ghost use Rattle.rows.specs.Values.{ValueStands, Plain};

use paper::Value;

// The value that a kind and its bits stand for.
pub fn value_of(kind: u32, bits: u64) -> Value
    requires { ValueStands kind bits }
    ensures { result ≡ value_of kind bits }
{
    match kind {
        0 => Value::Nothing,
        1 => Value::Whole(bits),
        _ => Value::Real(field::real(bits)),
    }
}

// Are two values equal in kind and bits?
pub fn same_value(a: Value, b: Value) -> bool
    requires a_plain { Plain a }
    requires b_plain { Plain b }
    ensures { result ≡ is_same_value a b }
{
    match a {
        Value::Nothing => match b {
            Value::Nothing => true,
            Value::Whole(_) => false,
            Value::Real(_) => false,
        },
        Value::Whole(m) => match b {
            Value::Nothing => false,
            Value::Whole(n) => m == n,
            Value::Real(_) => false,
        },
        Value::Real(x) => match b {
            Value::Nothing => false,
            Value::Whole(_) => false,
            Value::Real(y) => x.to_bits() == y.to_bits(),
        },
    }
}

// Do two kinds with their bits stand for one value?
pub fn one_value(kind: u32, bits: u64, kind2: u32, bits2: u64) -> bool
    requires first_stands { ValueStands kind bits }
    requires second_stands { ValueStands kind2 bits2 }
    ensures { result ≡ (eqb kind kind2 && eqb bits bits2) }
{
    same_value(value_of(kind, bits), value_of(kind2, bits2))
}
