//! The statements that give schema nodes: kinds and origins of nodes, and the definitions of which
//! statements are in a block, how many units they take, in which order files give nodes, where the
//! steps of a schema path lead, and what a refine may change (RFC 7950, sections 3, 6.5, 7.12 to
//! 7.17).
#![tactic(auto)]

mod origin;
mod statement_kind;

pub use origin::Origin;
pub use statement_kind::StatementKind;
