//! Lists of requirements that are borrowed from their texts: what they match, their ranges, why they don't match, and
//! the newest version that one of them matches. No call allocates.
#![tactic(auto)]

mod conflict;
mod first_failing;
mod inexact;
mod laws;
mod members;
mod newest;
mod others;
mod range_ref;
mod requirement_ref;
mod requirements_ref;
mod why;

pub use conflict::{Conflict, Span, conflict_in};
pub use inexact::write_inexact;
pub use members::text_between;
pub use newest::{Candidates, Texts, Wanted, newest_of};
pub use range_ref::{Bound, RangeRef};
pub use requirement_ref::RequirementRef;
pub use requirements_ref::{RequirementsRef, list_matches, wrong_member};
pub use why::{Excluded, Why, why_not};
