//! Blanks of Unicode that are no blanks of YANG.
use yv_note_statements::Message;

// What Unicode calls a blank that separates nothing in YANG.
fn name_of(character: char) -> Option<&'static str> {
    match character {
        '\u{85}' => Some("next line"),
        '\u{A0}' => Some("no-break space"),
        '\u{1680}' => Some("Ogham space mark"),
        '\u{2000}'..='\u{200A}' => Some("typographic space"),
        '\u{200B}' => Some("zero width space"),
        '\u{2028}' => Some("line separator"),
        '\u{2029}' => Some("paragraph separator"),
        '\u{202F}' => Some("narrow no-break space"),
        '\u{205F}' => Some("mathematical space"),
        '\u{2060}' => Some("word joiner"),
        '\u{3000}' => Some("ideographic space"),
        '\u{FEFF}' => Some("zero width no-break space"),
        _ => None,
    }
}

// The first such blank of a text, and its name.
fn first_of(text: &str) -> Option<(char, &'static str)> {
    for character in text.chars() {
        if let Some(name) = name_of(character) {
            return Some((character, name));
        }
    }
    None
}

/// Adds which character of a text looks like a blank and is none in YANG. Whether there is one.
pub(crate) fn say_blank(telling: &mut Message<'_>, text: &str) -> bool {
    let Some((character, name)) = first_of(text) else {
        return false;
    };
    telling.character(" It has the character ", character, " (");
    telling.say(name);
    telling.say("), which is no blank in YANG: write a space.");
    true
}
