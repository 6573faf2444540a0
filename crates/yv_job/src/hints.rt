//! Hints for words that users of other tools may type, and for what new users type first.
use std::alloc::{AllocError, Global};

const FOLDER_WORDS: &[&str] = &["-p", "--searchpath", "--search-path", "-D", "--search-dir"];

const TREE_WORDS: &[&str] = &["-f", "-ftree", "--tree"];

const DEPTH_WORDS: &[&str] = &["--tree-depth"];

const PART_WORDS: &[&str] = &["--tree-path", "--schema-node"];

const CHECK_WORDS: &[&str] = &["check", "--lint", "--strict", "--canonical", "--ietf"];

const FOLDERS: &str = "\
hint: name the files of modules; to search a folder for those that they import, write --path DIR\n";

const TREES: &str = "hint: to draw a tree, write yangcheck tree FILE\n";

const DEPTHS: &str = "hint: to draw N levels of a tree, write yangcheck tree --depth N FILE\n";

const PARTS: &str = "\
hint: to draw a node with all below it, write yangcheck tree --below /MODULE:NAME/NAME FILE\n";

const CHECKS: &str = "hint: to check modules, write yangcheck lint FILE\n";

/// How clap's refusal of a second `--support` begins.
const SECOND_SUPPORT: &str = "error: the argument '--support <S>' cannot be used multiple times";

/// How clap's refusal of a second `--import-only` begins.
const SECOND_IMPORTS: &str =
    "error: the argument '--import-only <L>' cannot be used multiple times";

const JOINED_SUPPORT: &str = "\
hint: give --support once and join its entries by `/`: --support MODULE:FEATURE/MODULE:FEATURE\n";

const JOINED_IMPORTS: &str = "\
hint: give --import-only once and join its modules by `,`: --import-only MODULE,MODULE\n";

/// Adds a hint to the text of a usage error, where it is about an option that was given twice, or
/// where one of the words is known.
pub(crate) fn push_hint(
    alloc: Global,
    text: &mut String,
    words: &[String],
) -> Result<(), AllocError> {
    if let Some(hint) = hint_on_second(text.as_str()) {
        return text.push_str(hint);
    }
    for (place, word) in words.iter().enumerate() {
        let word = word.as_str();
        if place == 1 && word.ends_with(".yang") {
            let hint = format!(in alloc; "hint: did you mean: yangcheck compile {word}\n")?;
            return text.push_str(hint.as_str());
        }
        if let Some(hint) = hint_on(word) {
            return text.push_str(hint);
        }
    }
    Ok(())
}

// The hint on an option whose values are joined, where clap refuses a second one.
fn hint_on_second(refusal: &str) -> Option<&'static str> {
    if refusal.starts_with(SECOND_SUPPORT) {
        Some(JOINED_SUPPORT)
    } else if refusal.starts_with(SECOND_IMPORTS) {
        Some(JOINED_IMPORTS)
    } else {
        None
    }
}

// The hint on a word that other tools know.
fn hint_on(word: &str) -> Option<&'static str> {
    let hints = [
        (FOLDER_WORDS, FOLDERS),
        (TREE_WORDS, TREES),
        (DEPTH_WORDS, DEPTHS),
        (PART_WORDS, PARTS),
        (CHECK_WORDS, CHECKS),
    ];
    for (words, hint) in hints {
        if words.iter().any(|known| *known == word) {
            return Some(hint);
        }
    }
    None
}
