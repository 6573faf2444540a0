//! The leafrefs that types say, with their paths (RFC 7950, section 9.9).
/// What a type says as a leafref (RFC 7950, sections 9.9.2 and 9.9.3).
#[derive(Clone, Copy)]
pub struct TypeLeafref {
    /// The number of the statement `type leafref` whose path it has.
    pub origin: usize,
    /// Whether the value that is referred to has to be there.
    pub is_required: bool,
}
