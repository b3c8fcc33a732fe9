//! How the answers of calls are written, whatever the types of their values.

use serde::{Deserialize, Serialize};
use serde_json::from_str;
use std::alloc::{AllocError, Global};
use std::cmp::Ordering;
use std::fmt::{Debug, Display};
use std::hash::{DefaultHasher, Hash, Hasher};

/// Whether there was memory to write it.
pub type Written = Result<(), AllocError>;

/// A value that is made of a text, or None.
pub type Made<T> = Result<Option<T>, AllocError>;

/// What is written where an allocation fails before the call.
pub const NOT_BEGUN: &str = "no memory before the call";

/// Writes a value by `Debug`, or an error by `Display` and `Debug`.
pub fn put<T: Debug + Drop, E: Display + Debug + Drop>(
    answer: Result<T, E>,
    output: &mut String,
) -> Written {
    match answer {
        Ok(value) => write!(output, "{value:?}"),
        Err(error) => write!(output, "{error}, {error:?}"),
    }
}

/// Writes a value as a call that borrows it leaves it, and then the call's answer.
pub fn lend<B, T, E, C>(alloc: Global, lent: Made<B>, call: C, output: &mut String) -> Written
where
    B: Debug + Drop,
    T: Debug + Drop,
    E: Display + Debug + Drop,
    C: FnOnce(&B, Global) -> Result<T, E> + Drop,
    requires { C.IsAlwaysCallable call }
{
    match lent {
        Ok(Some(lent)) => {
            let answer = call(&lent, alloc);
            write!(output, "{lent:?}|")?;
            put(answer, output)
        }
        Ok(None) => output.push_str("no value"),
        Err(_) => output.push_str(NOT_BEGUN),
    }
}

/// Writes the answer of a call that takes a value, or the value if memory is refused.
pub fn put_taken<T: Debug + Drop, B: Debug + Drop>(
    shown: Written,
    answer: Result<T, (B, AllocError)>,
    output: &mut String,
) -> Written {
    match (shown, answer) {
        (Ok(()), Ok(value)) => write!(output, "{value:?}"),
        (Ok(()), Err((taken, refused))) => write!(output, "{refused:?}|{taken:?}"),
        (refused, _) => refused,
    }
}

/// Writes what a value prints.
pub fn print<T: Display + Drop>(made: Made<T>, output: &mut String) -> Written {
    match &made {
        Ok(Some(value)) => write!(output, "{value}"),
        _ => output.push_str("no value"),
    }
}

/// Writes by `Debug` the text that a value prints.
pub fn put_text(alloc: Global, value: &impl Display, output: &mut String) -> Written {
    let text = value.to_string(alloc)?;
    write!(output, "|{text:?}")
}

/// Writes the form of a value, which is read from one, and what the value prints; or why it is refused.
pub fn put_form<'a, T: Serialize + Deserialize<'a> + Display + Debug + Drop>(
    alloc: Global,
    form: &'a str,
    output: &mut String,
) -> Written {
    match from_str::<T>(alloc, form) {
        Ok(value) => match serde_json::to_string(alloc, &value) {
            Ok(written) => write!(output, "{written}|{value}|{value:?}"),
            Err(error) => write!(output, "{:?}", error.classify()),
        },
        Err(error) => write!(output, "{:?}", error.classify()),
    }
}

/// Returns a value without the rest of the text that it is the front of.
pub fn front<T: Drop>(read: Result<Option<(T, &str)>, AllocError>) -> Made<T> {
    match read {
        Ok(Some((value, _))) => Ok(Some(value)),
        Ok(None) => Ok(None),
        Err(refused) => Err(refused),
    }
}

/// Returns the value of a form, if it is one.
pub fn formed<'a, T: Deserialize<'a> + Drop>(alloc: Global, form: &'a str) -> Made<T> {
    Ok(from_str(alloc, form).ok())
}

/// Whether two values are there, and equal.
pub fn equal<T: PartialEq + Drop>(one: Made<T>, other: Made<T>) -> bool {
    match (&one, &other) {
        (Ok(Some(one)), Ok(Some(other))) => one == other,
        _ => false,
    }
}

/// Returns the sign of how two values compare by `Ord` and `==`.
pub fn compare<T: Ord + Drop>(one: Made<T>, other: Made<T>) -> &'static str {
    match (&one, &other) {
        (Ok(Some(one)), Ok(Some(other))) => sign(one.cmp(other), one.cmp(other), one == other),
        _ => "no values",
    }
}

/// Returns the sign of how two values compare by precedence, by `Ord` and by `==`.
pub fn sign(precedence: Ordering, order: Ordering, is_equal: bool) -> &'static str {
    match (precedence, order, is_equal) {
        (Ordering::Less, Ordering::Less, false) => "<",
        (Ordering::Equal, Ordering::Less, false) => "~",
        (Ordering::Equal, Ordering::Equal, true) => "=",
        _ => "otherwise",
    }
}

/// Returns the hash of a value.
pub fn hash<T: Hash + Drop>(made: Made<T>) -> Option<u64> {
    let Ok(Some(value)) = &made else {
        return None;
    };
    let mut state = DefaultHasher::new();
    value.hash(&mut state);
    Some(state.finish())
}
