//! What the readers of numbers answer, by grammar and place value: laws about the definitions only.
ghost use Rattle.std.specs.Prelude.{◌≡◌, ◌≤◌, ◌↔◌, ℕ, ℤ, List, Some};
ghost use Rattle.yv_base_numbers.specs.{Numbers.{natural_of, integer_of, based_integer_of, scaled_of}, Numerals.{IsNumeral, IsInteger, IsBasedInteger, IsDecimal, Within64Bits}};

/// Digits of a radix are read as the number that their numeral writes, and nothing else is read.
pub fn naturals_are_written()
    ensures { (radix : ℕ) (text : List ℕ) (n : ℕ) → radix ≤ 16
        → (natural_of radix text ≡ Some n) ↔ Within64Bits (IsNumeral radix) text n }
{}

/// A text is read as the whole number that it writes, and as no other.
pub fn integers_are_written()
    ensures { (text : List ℕ) (z : ℤ) → (integer_of text ≡ Some z) ↔ IsInteger text z }
{}

/// A default's text is read as the whole number that it writes, and as no other.
pub fn based_integers_are_written()
    ensures { (text : List ℕ) (z : ℤ) → (based_integer_of text ≡ Some z) ↔ IsBasedInteger text z }
{}

/// A text is read as the scaled number of the decimal that it writes, and as no other.
pub fn decimals_are_written()
    ensures { (places : ℕ) (text : List ℕ) (z : ℤ) → (scaled_of places text ≡ Some z)
        ↔ IsDecimal places text z }
{}
