//! What is known of sequences of refines.
ghost use Rattle.std.specs.Prelude.{◌≡◌};
ghost use Rattle.yv_expand_changes.specs.InnerSequences.{known_of};

// What is known of a sequence, and the other value where there is none.
pub(crate) fn known_of<T: Copy>(known: &[T], sequence: Option<usize>, none: T) -> T
    ensures { result ≡ known_of known.now sequence none }
{
    match sequence {
        Some(sequence) => known.get(sequence).copied().unwrap_or(none),
        None => none,
    }
}
