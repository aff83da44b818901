//! What programs with random or measured runs share: choices, and lists that grow.
#![tactic(auto)]

mod choices;
mod lists;

pub use choices::Choices;
pub use lists::keep;
