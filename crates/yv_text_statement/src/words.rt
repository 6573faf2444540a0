//! Words in a list of words.
ghost use Rattle.std.specs.Prelude.{◌≡◌, map};
ghost use Rattle.yv_text_statement.specs.Words.{is_among};

/// Whether one of the words is the name.
#[inline(always)]
pub fn is_among(words: &[&str], name: &str) -> bool
    ensures { result ≡ is_among (map (λ w. w.now) words.now) name.now }
{
    for word in words {
        if *word == name {
            return true;
        }
    }
    false
}
