//! Errors of the calls that parse.

ghost use Rattle.std.specs.Prelude.{◌≡◌, string_bytes, Err, IfErr, IfNone, IfOk, IfSome, IsErrAnd, Ok, Some, String};
ghost use Rattle.versions.specs.Errors.{error_text, json_error, json_error_text, plain_error, read_error_text, IsIllegal, PlainError};
ghost use Rattle.versions.specs.declared.errors.ReadError.TheVariants.{Memory};

use std::alloc::{AllocError, Global};
use std::fmt;

/// The error for a text that does not parse as the wanted type. Each variant holds the whole text.
#[derive(Debug, Drop, thiserror::Error)]
pub enum Error {
    /// The text is not a strict version.
    IllegalSemver(String),
    /// The text is not a general version.
    IllegalVersion(String),
    /// The text is not a messy version.
    IllegalMess(String),
    /// The text is not a version of any kind.
    IllegalVersioning(String),
    /// The text is not a requirement, or not a list of requirements.
    IllegalOp(String),
}

impl Error {
    /// Returns a copy. `Err` means allocation failure.
    pub fn clone(&self, alloc: Global) -> Result<Error, AllocError>
        ensures { IfOk result (λ copy. plain_error copy ≡ plain_error self.now) }
    {
        match self {
            Error::IllegalSemver(text) => Ok(Error::IllegalSemver(copy_of(alloc, text)?)),
            Error::IllegalVersion(text) => Ok(Error::IllegalVersion(copy_of(alloc, text)?)),
            Error::IllegalMess(text) => Ok(Error::IllegalMess(copy_of(alloc, text)?)),
            Error::IllegalVersioning(text) => Ok(Error::IllegalVersioning(copy_of(alloc, text)?)),
            Error::IllegalOp(text) => Ok(Error::IllegalOp(copy_of(alloc, text)?)),
        }
    }
}

fn copy_of(alloc: Global, text: &String) -> Result<String, AllocError>
    ensures { IfOk result (λ copy. string_bytes copy ≡ string_bytes text.now) }
{
    String::from_str(alloc, text.as_str())
}

impl fmt::Display for Error {
    ghost output = { λ e. Some (error_text (plain_error e)) };

    fn fmt<W: fmt::Write>(&self, f: &mut fmt::Formatter<W>) -> fmt::Result {
        match self {
            Error::IllegalSemver(text) => write!(f, "Illegal SemVer: {text}"),
            Error::IllegalVersion(text) => write!(f, "Illegal Version: {text}"),
            Error::IllegalMess(text) => write!(f, "Illegal Mess: {text}"),
            Error::IllegalVersioning(text) => write!(f, "Illegal Versioning: {text}"),
            Error::IllegalOp(text) => write!(f, "Illegal Op: {text}"),
        }
    }
}

/// The error of the calls named `from_str`.
#[derive(Debug, Drop, thiserror::Error)]
pub enum ReadError {
    /// The text does not parse.
    Illegal(Error),
    /// An allocation failed, for the value or for the text in the error.
    Memory(AllocError),
}

impl fmt::Display for ReadError {
    ghost output = { λ e. Some (read_error_text e) };

    fn fmt<W: fmt::Write>(&self, f: &mut fmt::Formatter<W>) -> fmt::Result {
        match self {
            ReadError::Illegal(error) => write!(f, "{error}"),
            ReadError::Memory(_) => write!(f, "no memory"),
        }
    }
}

impl From<AllocError> for ReadError {
    ghost from_gives = { λ refused e. e ≡ Memory refused };

    fn from(refused: AllocError) -> ReadError {
        ReadError::Memory(refused)
    }
}

// Returns the parsed value. Otherwise fails with the error that `wrong` makes of a copy of the text, or with `Memory`
// if that copy cannot be allocated, or the value couldn't.
pub(crate) fn or_illegal<T: Drop, F: FnOnce(String) -> Error + Drop>(
    alloc: Global,
    value: Result<Option<T>, AllocError>,
    s: &str,
    wrong: F,
) -> Result<T, ReadError>
    requires { (text : _) → F.pre wrong text }
    ensures some { IfOk value (λ o. IfSome o (λ v. result ≡ Ok v)) }
    ensures none { (e : PlainError)
        → ((text : _) (error : _) → string_bytes text ≡ s.now → F.post wrong text error
        → plain_error error ≡ e)
        → IfOk value (λ o. IfNone o (IsErrAnd result (IsIllegal e))) }
    ensures err { IfErr value (λ refused. result ≡ Err (Memory refused)) }
{
    match value? {
        Some(value) => Ok(value),
        None => Err(ReadError::Illegal(wrong(String::from_str(alloc, s)?))),
    }
}

/// The error of the calls that parse a JSON value as a version or requirement.
#[derive(Debug, Drop, thiserror::Error)]
pub enum JsonError {
    /// The value is not a string.
    NotText,
    /// The string does not parse.
    Illegal(Error),
    /// An allocation failed, for the value or for the text in the error.
    Memory(AllocError),
}

impl fmt::Display for JsonError {
    ghost output = { λ e. Some (json_error_text e) };

    fn fmt<W: fmt::Write>(&self, f: &mut fmt::Formatter<W>) -> fmt::Result {
        match self {
            JsonError::NotText => write!(f, "not a JSON string"),
            JsonError::Illegal(error) => write!(f, "{error}"),
            JsonError::Memory(_) => write!(f, "no memory"),
        }
    }
}

impl From<ReadError> for JsonError {
    ghost from_gives = { λ error e. e ≡ json_error error };

    fn from(error: ReadError) -> JsonError {
        match error {
            ReadError::Illegal(illegal) => JsonError::Illegal(illegal),
            ReadError::Memory(refused) => JsonError::Memory(refused),
        }
    }
}
