//! The types of YANG files (RFC 7950, section 9): what is wrong with the types to which they lead
//! along typedefs, with their ranges, lengths and patterns, and with their names and numbers, and
//! the least of it all; and where nothing is wrong the plain types that the values of each may
//! have, unions opened.
#![tactic(auto)]

mod build;
pub mod default_laws;
mod default_lookup;
mod default_table;
mod defaults;
mod first;
pub mod laws;
mod layers;
pub mod leafref_laws;
mod leafref_lookup;
mod leafref_path;
mod leafref_types;
mod path;
mod require_instance;
mod rows;
mod scopes;
mod spaces;
mod step;
mod table;
mod type_table;
mod typedef_defaults;
mod values;

pub use build::{resolve_types, types};
pub use defaults::TypedefDefaults;
pub use first::first_bad_type;
pub use leafref_path::TypeLeafref;
pub use leafref_types::LeafrefTypes;
pub use path::{PathText, path_of};
pub use scopes::scopes_of;
pub use type_table::Types;
pub use values::default_value;
pub use yv_link_definitions::{Names, names};
