//! Modules as a whole: which files there are, which modules prefixes identify, which features are
//! on, and which identities there are (RFC 7950, sections 5.1, 5.6.1, 6.2.1, 7.18 and 7.20).
#![tactic(auto)]

pub mod laws;
mod link_files;
mod linked_files;
mod modules;

pub use link_files::link;
pub use linked_files::Linked;
pub use modules::ModuleRef;
pub use yv_link_identities::IdentityRef;
pub use yv_text_statement::Selection;
