//! The tokens of a JSON text, told byte by byte. Any bytes have tokens: whether they are JSON is
//! for their reader to say.

/// An object or an array.
#[derive(Clone, Copy, PartialEq, Eq)]
pub(crate) enum Container {
    Object,
    Array,
}

/// A string with its quotes, from one offset to the one after its end.
#[derive(Clone, Copy)]
pub(crate) struct Quotation {
    pub(crate) start: usize,
    pub(crate) end: usize,
    pub(crate) has_escapes: bool,
}

/// What begins or ends with a byte.
#[derive(Clone, Copy)]
pub(crate) enum Token {
    /// Nothing: the byte is a blank, or inside a string, a number or a word.
    Nothing,
    /// A string ends.
    Text(Quotation),
    /// A number, `true`, `false` or `null` begins.
    Scalar,
    /// An object or an array begins.
    Begin(Container),
    /// An object or an array ends.
    End,
    /// The colon between a name and its value.
    NameSeparator,
    /// The comma between two values.
    ValueSeparator,
}

// What the next byte is inside of.
#[derive(Clone, Copy)]
enum Inside {
    Nothing,
    Scalar,
    Text,
    Escape,
}

/// Tells tokens, over the bytes of a text in their order.
#[derive(Drop)]
pub(crate) struct Lexer {
    inside: Inside,
    // Of the string that the next byte is inside of: where it begins.
    start: usize,
    has_escapes: bool,
}

impl Lexer {
    /// A lexer before the first byte of a text.
    pub(crate) fn new() -> Lexer {
        Lexer {
            inside: Inside::Nothing,
            start: 0,
            has_escapes: false,
        }
    }

    /// The token that the byte at an offset makes.
    pub(crate) fn token(&mut self, offset: usize, byte: u8) -> Token {
        match self.inside {
            Inside::Text => self.text_token(offset, byte),
            Inside::Escape => self.go_into(Inside::Text),
            Inside::Nothing => self.outer_token(offset, byte, Token::Scalar),
            Inside::Scalar => self.outer_token(offset, byte, Token::Nothing),
        }
    }

    // No token, but the next byte is inside of something else.
    fn go_into(&mut self, inside: Inside) -> Token {
        self.inside = inside;
        Token::Nothing
    }

    // The token of a byte inside of a string.
    fn text_token(&mut self, offset: usize, byte: u8) -> Token {
        match byte {
            b'"' => self.end_text(offset),
            b'\\' => {
                self.has_escapes = true;
                self.go_into(Inside::Escape)
            }
            _ => Token::Nothing,
        }
    }

    fn end_text(&mut self, offset: usize) -> Token {
        self.inside = Inside::Nothing;
        Token::Text(Quotation {
            start: self.start,
            end: offset.saturating_add(1),
            has_escapes: self.has_escapes,
        })
    }

    // The token of a byte outside of strings, where a byte of a number or a word makes this one.
    fn outer_token(&mut self, offset: usize, byte: u8, scalar: Token) -> Token {
        self.inside = Inside::Nothing;
        match byte {
            b' ' | b'\t' | b'\n' | b'\r' => Token::Nothing,
            b'"' => self.begin_text(offset),
            b'{' => Token::Begin(Container::Object),
            b'[' => Token::Begin(Container::Array),
            b'}' | b']' => Token::End,
            b':' => Token::NameSeparator,
            b',' => Token::ValueSeparator,
            _ => {
                self.inside = Inside::Scalar;
                scalar
            }
        }
    }

    fn begin_text(&mut self, offset: usize) -> Token {
        self.start = offset;
        self.has_escapes = false;
        self.go_into(Inside::Text)
    }
}
