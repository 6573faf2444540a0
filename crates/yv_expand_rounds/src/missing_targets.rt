//! Augments that add to no node.
ghost use Rattle.std.specs.Prelude.{◌≡◌, List};
ghost use Rattle.yv_expand_rounds.specs.{declared.label.Label.{Label}, Paths.{lesser}, Turns.{State, target_of}, MissingTargets.{IsFirstWithoutTarget}, InnerState.{IsAugmentation}, InnerMissingTargets.{place_without}};

use crate::augmentation::Augmentation;

// The lesser of two places.
fn lesser(first: Option<usize>, second: Option<usize>) -> Option<usize>
    ensures { result ≡ lesser first second }
{
    match (first, second) {
        (None, second) => second,
        (Some(first), None) => Some(first),
        (Some(first), Some(second)) => Some(first.min(second)),
    }
}

impl Augmentation {
    // The place of a numbered augment, if it adds to no node.
    fn place_without(&self, number: usize, place: Option<usize>) -> Option<usize>
        ensures { (labels : List Label) (st : State) → IsAugmentation labels st self.now
            → result ≡ place_without (target_of labels st.ends number) place }
    {
        match self.target(number) {
            Some(_) => None,
            None => place,
        }
    }

    /// The least place of an augment that adds to no node: it was never applied, or its path ends
    /// where no augment may add. An augment without a place isn't asked, as one of a uses that
    /// isn't there.
    pub fn first_without_target(&self, places: &[Option<usize>]) -> Option<usize>
        ensures { (labels : List Label) (st : State) → IsAugmentation labels st self.now
            → IsFirstWithoutTarget labels st.ends places.now result }
    {
        let mut least = None;
        for (number, place) in places.iter().enumerate() {
            least = lesser(least, self.place_without(number, *place));
        }
        least
    }
}
