//! What kind of document is asked for.

/// The kind of data that a JSON document is to have.
#[derive(Clone, Copy, Debug, PartialEq, Eq)]
pub enum Kind {
    /// Configuration and state.
    All,
    /// Configuration alone (RFC 7950, section 7.21.1): no rule holds for state, and no state may be
    /// there.
    ConfigOnly,
}
