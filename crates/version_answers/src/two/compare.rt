//! How two versions compare, as `compare` and `test` have it.

ghost use Rattle.std.specs.Prelude.{◌≡◌};
ghost use Rattle.version_answers.specs.Two.{holds, sign_text};

use std::cmp::Ordering;

/// How two versions are asked to compare by precedence.
#[derive(Clone, Copy, Debug)]
pub enum Operator {
    Less,
    LessOrEqual,
    Equal,
    GreaterOrEqual,
    Greater,
}

/// Returns whether an operator holds between two versions that compare so.
pub fn holds(operator: Operator, order: Ordering) -> bool
    ensures { result ≡ holds operator order }
{
    match operator {
        Operator::Less => order.is_lt(),
        Operator::LessOrEqual => order.is_le(),
        Operator::Equal => order.is_eq(),
        Operator::GreaterOrEqual => order.is_ge(),
        Operator::Greater => order.is_gt(),
    }
}

/// Returns the sign of an ordering.
pub(crate) fn sign(order: Ordering) -> &'static [u8]
    ensures { result.now ≡ sign_text order }
{
    match order {
        Ordering::Less => b"<",
        Ordering::Equal => b"=",
        Ordering::Greater => b">",
    }
}
