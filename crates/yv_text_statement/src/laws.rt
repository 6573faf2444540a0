//! Laws about the definitions only.
ghost use Rattle.std.specs.{Prelude.{◌≡◌, ℕ, List, IfSome}, Str.{bytes_eq}};
ghost use Rattle.yv_text_statement.specs.{declared.refusal.Refusal.{Refusal}, declared.keyword.Keyword.{Keyword}, Keywords.{keyword_of, same, spelling}, Order.{IsUpTo}};

/// Two refusals that are each up to the other are the same, so that the least of several is one
/// refusal.
pub fn order_tells_refusals_apart()
    ensures { (r s : Refusal) → IsUpTo r s → IsUpTo s r → r ≡ s }
{}

/// A text writes a keyword exactly where it is the keyword's own text, for each keyword that has
/// one.
pub fn a_keyword_has_one_text()
    ensures { (text : List ℕ) (keyword : Keyword) → IfSome (spelling keyword)
        (λ word. same (keyword_of text) keyword ≡ bytes_eq text word) }
{}
