//! Versions and requirements as strings of JSON documents.

ghost use Rattle.std.specs.Prelude.{◌≡◌, IfOk, MatchResult, None};
ghost use Rattle.serde_json.specs.{Data.string, Find.as_str, View.view};
ghost use Rattle.versions.specs.{Errors.IllegalOp, Errors.IllegalVersioning, Json.ReadsJson, Requirements.plain_requirement, Requirements.plain_requirements, Versioning.plain_versioning, declared.errors.JsonError.TheVariants.NotText};
ghost use Rattle.version_rules.specs.grammar.Versioning.{versioning_of, versioning_text, VersioningOwns};
ghost use Rattle.version_rules.specs.requirement.{Requirement.requirement_of, Requirement.requirement_text, Requirement.RequirementOwns, Requirements.requirements_of, Requirements.requirements_text};

use crate::errors::JsonError;
use crate::requirement::Requirement;
use crate::requirements::Requirements;
use crate::versioning::Versioning;
use serde_json::Value;
use std::alloc::{AllocError, Global};

impl Versioning {
    /// Returns the printed text as a JSON string. `Err` means allocation failure.
    pub fn serialize_pretty(&self, alloc: Global) -> Result<Value, AllocError>
        ensures { IfOk result (λ value. view value
            ≡ string (versioning_text (plain_versioning self.now))) }
    {
        Ok(Value::String(self.to_string(alloc)?))
    }

    /// Parses a JSON string as a version. Fails with `NotText` if the value is not a string; this does not allocate.
    /// Fails with `Illegal` if the string is not a version: the error is `IllegalVersioning` with the string. Fails
    /// with `Memory` if an allocation fails, for the version or for that string.
    pub fn deserialize_pretty(alloc: Global, value: &Value) -> Result<Versioning, JsonError>
        ensures read { ReadsJson plain_versioning VersioningOwns IllegalVersioning versioning_of result
            (as_str (view value.now)) }

        // Writing the version gives the string that it was parsed from.
        ensures written { IfOk result (λ v. view value.now
            ≡ string (versioning_text (plain_versioning v))) }
    {
        Ok(Versioning::from_str(alloc, text_of(value)?)?)
    }
}

impl Requirement {
    /// Returns the printed text as a JSON string. `Err` means allocation failure.
    pub fn serialize(&self, alloc: Global) -> Result<Value, AllocError>
        ensures { IfOk result (λ value. view value
            ≡ string (requirement_text (plain_requirement self.now))) }
    {
        Ok(Value::String(self.to_string(alloc)?))
    }

    /// Parses a JSON string as a requirement. Fails with `NotText` if the value is not a string; this does not
    /// allocate. Fails with `Illegal` if the string is not a requirement: the error is `IllegalOp` with the string.
    /// Fails with `Memory` if an allocation fails, for the requirement or for that string.
    pub fn deserialize(alloc: Global, value: &Value) -> Result<Requirement, JsonError>
        ensures read { ReadsJson plain_requirement RequirementOwns IllegalOp requirement_of result
            (as_str (view value.now)) }

        // Writing the requirement gives the string that it was parsed from.
        ensures written { IfOk result (λ r. view value.now
            ≡ string (requirement_text (plain_requirement r))) }
    {
        Ok(Requirement::from_str(alloc, text_of(value)?)?)
    }
}

impl Requirements {
    /// Returns the printed text as a JSON string. `Err` means allocation failure.
    pub fn serialize(&self, alloc: Global) -> Result<Value, AllocError>
        ensures { IfOk result (λ value. view value
            ≡ string (requirements_text (plain_requirements self.now))) }
    {
        Ok(Value::String(self.to_string(alloc)?))
    }

    /// Parses a JSON string as a list of requirements. Fails with `NotText` if the value is not a string; this does not
    /// allocate. Fails with `Illegal` if the string is not a list: the error is `IllegalOp` with the string. Fails with
    /// `Memory` if an allocation fails, for the list or for that string.
    pub fn deserialize(alloc: Global, value: &Value) -> Result<Requirements, JsonError>
        ensures read { ReadsJson plain_requirements
            (λ _. Unit {0}) IllegalOp requirements_of result (as_str (view value.now)) }

        // Writing the list gives the string that it was parsed from.
        ensures written { IfOk result (λ list. view value.now
            ≡ string (requirements_text (plain_requirements list))) }
    {
        Ok(Requirements::from_str(alloc, text_of(value)?)?)
    }
}

// Returns the text of a JSON string, or `NotText` for another value.
fn text_of(value: &Value) -> Result<&str, JsonError>
    ensures { MatchResult result (λ text. view value.now ≡ string text.now)
        (λ e. (e ≡ NotText) × (as_str (view value.now) ≡ None)) }
{
    value.as_str().ok_or(JsonError::NotText)
}
