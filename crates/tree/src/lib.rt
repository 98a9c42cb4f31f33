// The tree of a protocol's states: one walk over its nodes, which hands them on, and the certificate that notes them.
#![tactic(auto)]

pub mod certificate;
pub mod certifying;
pub mod fault;
pub mod note;
mod said;
pub mod visitor;
pub mod walk;
