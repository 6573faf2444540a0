//! The words of an argument, one by one.
ghost use Rattle.std.specs.{Prelude.{◌≡◌, ◌≤◌, ◌<◌, false, length, slice_index}, Iterator.{YieldsFirstRef, item_count}};
ghost use Rattle.yv_text_grammar.specs.{Words.{words}, InnerWords.{word_len, words_left}};
ghost use Rattle.yv_text_if_feature.specs.Bytes.{is_blank};

/// The words of a text: what is between blanks.
#[derive(Clone, Copy)]
pub struct Words<'a> {
    rest: &'a [u8],
}

impl<'a> Words<'a> {
    pub fn new(text: &'a [u8]) -> Words<'a>
        ensures { words_left result ≡ words text.now }
    {
        Words { rest: text }
    }
}

impl<'a> Iterator for Words<'a> {
    type Item = &'a [u8];

    ghost next_gives = { YieldsFirstRef words_left };

    ghost remaining = { item_count words_left };

    fn next(&mut self) -> Option<&'a [u8]> {
        let rest = skip_blanks(self.rest);
        if rest.is_empty() {
            self.rest = rest;
            return None;
        }
        let (word, after) = rest.split_at(word_len(rest));
        self.rest = after;
        Some(word)
    }
}

// How many bytes come before the first blank.
fn word_len(text: &[u8]) -> usize
    ensures len { result ≡ word_len text.now }
    ensures bound { result ≤ length text.now }
{
    let mut count = 0;
    for byte in text {
        if is_blank(*byte) {
            return count;
        }
        count += 1;
    }
    count
}

/// A space, a tab, a CR or an LF.
pub fn is_blank(byte: u8) -> bool
    ensures { result ≡ is_blank byte }
{
    byte == b' ' || byte == b'\t' || byte == b'\r' || byte == b'\n'
}

// The text after the blanks at its front.
fn skip_blanks(text: &[u8]) -> &[u8]
    ensures words { words result.now ≡ words text.now }
    ensures bound { length result.now ≤ length text.now }
    ensures front { 0 < length result.now → is_blank (slice_index result.now 0) ≡ false }
{
    let mut rest = text;
    while !rest.is_empty() && is_blank(rest[0]) {
        rest = &rest[1..];
    }
    rest
}
