//! Laws of names and of identities, and laws about the definitions only.
ghost use Rattle.std.specs.{Prelude.{◌≡◌, ℕ, List, Some}, List.{list_any}};
ghost use Rattle.yv_values.specs.{Identities.{Id, RiseById, is_identity}, NameOrder.{Rises, is_named}, Texts.{HaveSameWords, bits_in}, Values.{Val}};

use crate::members::Members;
use crate::names::NameSet;

/// Each name of a type comes before all later ones.
pub fn names_rise(names: &NameSet)
    ensures { Rises names.now }
{
    names.rise();
}

/// Each identity of a type comes before all later ones.
pub fn identities_rise(members: &Members)
    ensures { RiseById members.now }
{
    members.rise();
}

/// Two lists of texts that rise are one where they have the same texts.
pub fn texts_that_rise_are_one_list()
    ensures { (xs ys : List (List ℕ)) → Rises xs → Rises ys
        → ((s : List ℕ) → is_named xs s ≡ is_named ys s) → xs ≡ ys }
{}

/// Two lists of identities that rise are one where they have the same identities.
pub fn identities_that_rise_are_one_list()
    ensures { (xs ys : List Id) → RiseById xs → RiseById ys
        → ((module_name called : List ℕ) → list_any (is_identity module_name called) xs
        ≡ list_any (is_identity module_name called) ys)
        → xs ≡ ys }
{}

/// A set of bits is the same value in whatever order its names are written.
pub fn bits_come_in_any_order()
    ensures { (names : List (List ℕ)) (s t : List ℕ) (v w : Val) → HaveSameWords s t →
        bits_in names s ≡ Some v → bits_in names t ≡ Some w → v ≡ w }
{}
