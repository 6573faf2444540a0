//! That entries have the numbers that the RFC assigns: laws about the definitions only.
ghost use Rattle.std.specs.Prelude.{◌≡◌, ◌↔◌, ℕ, ℤ, List, Option, Some, None, map};
ghost use Rattle.yv_base_numbers.specs.{Numerals.{HasSign, IsNumeral}, Assignment.{AreKept, AreNumbers, names_of}, Entries.{Entry, whole_number}, Numberings.{IsFirstWrong, is_wrong, is_wrong_in, keep_numbers, number_entries}, declared.numbering.NumberKind.{NumberKind}};

/// No entry of a new type is wrong exactly where all have the numbers that are assigned to them,
/// and then each name gets just this number.
pub fn numbers_are_assigned()
    // If all entries have the numbers that are assigned to them, none is wrong.
    ensures right { (kind : NumberKind) (es : List Entry) (ns : List ℤ) → AreNumbers kind es ns
        → IsFirstWrong (number_entries kind) (is_wrong kind) es None }
    // Then each name has exactly its number.
    ensures same { (kind : NumberKind) (es : List Entry) (ns : List ℤ) → AreNumbers kind es ns
        → (map (λ p. p.name) (number_entries kind es) ≡ names_of es)
        × (map (λ p. p.number) (number_entries kind es) ≡ ns) }
    // If no entry is wrong, all entries have such numbers: names and numbers differ, numbers are of
    // the kind's 32 bits, and each is the stated one, else 0 for the first entry and one more than
    // the highest so far for a later one.
    ensures there { (kind : NumberKind) (es : List Entry)
        → IsFirstWrong (number_entries kind) (is_wrong kind) es None
        → AreNumbers kind es (map (λ p. p.number) (number_entries kind es)) }
{}

/// The same of a derived type, whose names keep the numbers of the base.
pub fn numbers_are_kept()
    // If names differ, each is one of the base, and nothing but the base's number is stated, no
    // entry is wrong.
    ensures right { (base : List ℕ → Option ℤ) (es : List Entry) (ns : List ℤ) → AreKept base es ns
        → IsFirstWrong (keep_numbers base) (is_wrong_in base) es None }
    // Then each name has the base's number.
    ensures same { (base : List ℕ → Option ℤ) (es : List Entry) (ns : List ℤ) → AreKept base es ns
        → (map (λ p. p.name) (keep_numbers base es) ≡ names_of es)
        × (map (λ p. p.number) (keep_numbers base es) ≡ ns) }
    // If no entry is wrong, that holds of all of them.
    ensures there { (base : List ℕ → Option ℤ) (es : List Entry)
        → IsFirstWrong (keep_numbers base) (is_wrong_in base) es None
        → AreKept base es (map (λ p. p.number) (keep_numbers base es)) }
{}

/// A text states the whole number of any size that its sign, or none, and its decimal numeral
/// write, and no other.
pub fn whole_numbers_are_written()
    ensures { (text : List ℕ) (z : ℤ) → (whole_number text ≡ Some z)
        ↔ HasSign (IsNumeral 10) text z }
{}
