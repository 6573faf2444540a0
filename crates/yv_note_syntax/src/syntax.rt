//! Why no statement goes on at a place of a file.
use crate::arguments::is_named;
use crate::blanks::say_blank;
use crate::outline::{Head, Kind, Outline, Token, word};
use crate::substatements::is_known;
use crate::syntax_note::text_of;
use crate::tokens::CURLY;
use std::alloc::{AllocError, Global};
use yv_note_statements::Message;
use yv_note_text::{has_curly_quote, is_blank};
use yv_text_statement::Keyword;

// A place of a file: what was read before it, and what is at it.
#[derive(Drop)]
struct Place<'a> {
    file: u32,
    outline: Outline<'a>,
    rest: &'a [u8],
}

// The statements whose argument is a text for people.
static TEXTS: &[Keyword] = &[
    Keyword::Organization,
    Keyword::Contact,
    Keyword::Description,
    Keyword::Reference,
    Keyword::ErrorMessage,
    Keyword::Presence,
    Keyword::Units,
];

// What a keyword of these bytes means.
fn kind_of(bytes: &[u8]) -> Keyword {
    Keyword::read(text_of(bytes))
}

// That there is no sign between a keyword and its argument.
const EQUALS: &str = "YANG has no `=`: write the keyword, a blank and the argument.";

/// Adds why no statement goes on after the front of a file.
pub(crate) fn tell_syntax<'a>(
    telling: &mut Message<'a>,
    file: u32,
    front: &'a [u8],
    rest: &'a [u8],
) -> Result<(), AllocError> {
    let place = Place {
        file,
        outline: Outline::read(telling.alloc(), front)?,
        rest,
    };
    match (place.outline.unfinished, rest.first()) {
        _ if place.outline.is_over() => place.tell_over(telling),
        (Some(head), None) => place.tell_unended(telling, &head),
        (None, None) => place.tell_end(telling),
        (Some(head), Some(b'}')) => place.tell_unended(telling, &head),
        (Some(head), Some(_)) if place.outline.is_after(Kind::Plus) => {
            place.tell_unended(telling, &head);
        }
        (Some(head), Some(_)) => place.tell_after(telling, &head),
        (None, Some(byte)) => place.tell_between(telling, *byte),
    }
    Ok(())
}

impl<'a> Place<'a> {
    // Adds a statement and its place.
    fn say_head(
        &self,
        telling: &mut Message<'a>,
        before: &'a str,
        head: &Head<'a>,
        after: &'a str,
    ) {
        let argument = match head.argument {
            Some(argument) => Some(text_of(argument)),
            None => None,
        };
        telling.head(before, text_of(head.keyword), argument, "");
        telling.line(" at ", self.file, head.line, after);
    }

    // Adds that something follows the outermost statement.
    fn tell_over(&self, telling: &mut Message<'a>) {
        let Some(head) = self.outline.ended else {
            return;
        };
        if self.rest.starts_with(b"}") {
            self.say_head(
                telling,
                "This `}` is one too many: the block of ",
                &head,
                "",
            );
        } else {
            self.say_head(telling, "Nothing can follow the block of ", &head, "");
        }
        if let Some(last) = self.outline.last {
            telling.line(", which ends at ", self.file, last.last_line, "");
        }
        telling.say(if self.rest.starts_with(b"}") {
            ", is closed already."
        } else {
            ": a file has one `module` or `submodule`."
        });
        self.say_odd(telling);
    }

    // Adds which closing brace doesn't fit the statement whose block it closes.
    fn say_odd(&self, telling: &mut Message<'a>) {
        if let Some(odd) = self.outline.odd {
            telling.line(" The `}` at ", self.file, odd.line, "");
            self.say_head(
                telling,
                " closes ",
                &odd.head,
                ", but is indented differently.",
            );
        }
    }

    // Adds that a statement isn't ended.
    fn tell_unended(&self, telling: &mut Message<'a>, head: &Head<'a>) {
        if self.outline.is_after(Kind::Plus) {
            telling.say("A `+` joins one more quoted text, which is missing here.");
        } else if self.rest.is_empty() {
            self.say_head(
                telling,
                "The file ends, and ",
                head,
                " has no `;` and no block.",
            );
        } else {
            self.say_head(telling, "A `;` is missing after ", head, ".");
        }
    }

    // Adds what is missing at the end of the file.
    fn tell_end(&self, telling: &mut Message<'a>) {
        match self.outline.open.last() {
            Some(head) => {
                self.say_head(
                    telling,
                    "The file ends, and the block of ",
                    head,
                    " is not closed: it needs a `}`.",
                );
                self.say_odd(telling);
            }
            None => {
                telling.say("The file has no statement: it needs a `module` or a `submodule`.");
            }
        }
    }

    // Adds why a text or a brace can't be where a statement begins.
    fn tell_between(&self, telling: &mut Message<'a>, byte: u8) {
        match byte {
            b';' if self.outline.is_after(Kind::Close) => {
                telling.say("A block is not followed by a `;`.");
            }
            b';' => telling.say("This `;` has no statement before it."),
            b'{' => self.tell_open(telling),
            b'}' => telling.say("This `}` closes nothing: no block is open."),
            b'"' | b'\'' => {
                telling.say("A statement begins with a keyword, and a keyword is not in quotes.");
            }
            b'<' => telling.say(
                "This is XML, not YANG: a module in YIN has to be converted first.",
            ),
            _ => self.tell_no_keyword(telling),
        }
    }

    // Adds that a text is not a keyword.
    fn tell_no_keyword(&self, telling: &mut Message<'a>) {
        telling.quote(
            "",
            text_of(self.word()),
            " is not a keyword: that is a name, or a prefix, a colon and a name.",
        );
        if say_blank(telling, text_of(self.word())) {
            return;
        }
        if has_curly_quote(self.word()) {
            telling.say(CURLY);
        } else if self.rest.starts_with(b"#") {
            telling.say(" Comments are `// ..` and `/* .. */`.");
        } else if self.word().iter().any(|byte| *byte == b'=') {
            telling.say(" ");
            telling.say(EQUALS);
        }
    }

    // Adds that a brace has no statement before it.
    fn tell_open(&self, telling: &mut Message<'a>) {
        match self.outline.ended {
            Some(head) if self.outline.is_after(Kind::Semicolon) => self.say_head(
                telling,
                "This `{` has no statement before it: a `;` ends ",
                &head,
                ".",
            ),
            _ if self.outline.last.is_none() => telling.say(
                "This `{` has no statement before it. A file is a `module` or a `submodule` in YANG, and not JSON.",
            ),
            _ => telling.say("This `{` has no statement before it."),
        }
    }

    // The unquoted text at the place.
    fn word(&self) -> &'a [u8] {
        self.rest.get(..word(self.rest)).unwrap_or(self.rest)
    }

    // Adds why a text can't follow a statement's argument.
    fn tell_after(&self, telling: &mut Message<'a>, head: &Head<'a>) {
        let is_quoted = matches!(self.rest, [b'"' | b'\'', ..]);
        match self.outline.last {
            Some(token) if token.kind == Kind::Quoted => {
                self.tell_after_quoted(telling, head, &token, is_quoted);
            }
            Some(token) if matches!(token.bytes, [b'=']) || self.word().starts_with(b"=") => {
                telling.say(EQUALS);
            }
            Some(token) if self.is_several(head, &token) => {
                self.tell_several(telling, head);
                self.say_curly(telling, &token);
            }
            _ => self.say_head(telling, "A `;` or a block is missing after ", head, "."),
        }
    }

    // Adds that an argument has several words.
    fn tell_several(&self, telling: &mut Message<'a>, head: &Head<'a>) {
        let keyword = kind_of(head.keyword);
        if is_named(keyword) {
            self.say_head(telling, "A second word follows ", head, "");
            telling.say(", and a name has no blanks; or a `;` is missing.");
            return;
        }
        self.say_head(
            telling,
            "The argument of ",
            head,
            " has several words, so it needs quotes",
        );
        telling.say(if TEXTS.contains(&keyword) {
            "."
        } else {
            "; or a `;` is missing."
        });
    }

    // Adds that typographic quotes aren't quotes, if this token or the text at the place has one.
    fn say_curly(&self, telling: &mut Message<'a>, token: &Token<'a>) {
        if has_curly_quote(token.bytes) || has_curly_quote(self.word()) {
            telling.say(CURLY);
        }
    }

    // Whether the text at the place seems to be another word of an argument that ends with this
    // one: on the same line any text after one of the words of a text, and else what is no
    // statement.
    fn is_several(&self, head: &Head<'a>, token: &Token<'a>) -> bool {
        token.kind == Kind::Word
            && token.last_line == self.outline.line()
            && (TEXTS.contains(&kind_of(head.keyword)) || !self.is_statement())
    }

    // Whether a statement seems to begin at the place: with a keyword, and an argument after it.
    fn is_statement(&self) -> bool {
        let word = self.word();
        let behind = self.rest.get(word.len()..).unwrap_or(&[]);
        let next = behind.iter().find(|byte| !is_blank(**byte));
        is_known(kind_of(word)) && !matches!(next, Some(b';' | b'{' | b'}'))
    }

    // Adds why a text can't follow an argument in quotes.
    fn tell_after_quoted(
        &self,
        telling: &mut Message<'a>,
        head: &Head<'a>,
        token: &Token<'a>,
        is_quoted: bool,
    ) {
        if token.line != token.last_line {
            telling.line("The quoted text from ", self.file, token.line, "");
            telling.line(
                " on ends at ",
                self.file,
                token.last_line,
                ", and something follows it: is a quote or a `;` missing?",
            );
        } else if self.outline.is_adjacent() {
            self.say_head(telling, "Something follows the quoted text of ", head, "");
            telling.say(" directly: a double quote inside double quotes is written `\\\"`.");
        } else if is_quoted {
            self.say_head(telling, "A `;` is missing after ", head, "");
            telling.say(", or a `+` between two quoted texts.");
        } else {
            self.say_head(telling, "A `;` or a block is missing after ", head, ".");
        }
    }
}
