//! Names of files, as `N.yang` and `N@DATE.yang` (RFC 7950, section 5.2).
ghost use Rattle.std.specs.{Prelude.{◌≡◌, ◌==◌, position}, Option.{option_map}, List.{list_all}};
ghost use Rattle.yv_text_if_feature.specs.Bytes.{is_digit};
ghost use Rattle.yv_search.specs.{FileNames.{last_part, is_date, stem, with_date, named_stem, name_in_path}, InnerIndex.{name_of_file}};

/// What the name of a file says.
#[derive(Clone, Copy)]
pub(crate) struct FileName<'a> {
    /// The name of a module or submodule.
    pub(crate) name: &'a [u8],
    /// The date of a revision.
    pub(crate) date: Option<&'a [u8]>,
}

// The last part of a path.
fn last_part(path: &[u8]) -> &[u8]
    ensures { result.now ≡ last_part path.now }
{
    let mut start = path.len();
    while start > 0 {
        if path[start - 1] == b'/' {
            return &path[start..];
        }
        start -= 1;
    }
    path
}

// Whether a text is dddd-dd-dd, each d a digit.
fn is_date(text: &[u8]) -> bool
    ensures { result ≡ is_date text.now }
{
    text.len() == 10
        && are_digits(&text[..4])
        && text[4] == b'-'
        && are_digits(&text[5..7])
        && text[7] == b'-'
        && are_digits(&text[8..10])
}

fn are_digits(text: &[u8]) -> bool
    ensures { result ≡ list_all is_digit text.now }
{
    text.iter().all(|byte| matches!(*byte, b'0'..=b'9'))
}

// What is before the ending `.yang`.
fn stem(part: &[u8]) -> Option<&[u8]>
    ensures { option_map (λ text. text.now) result ≡ stem part.now }
{
    if part.ends_with(b".yang") {
        Some(&part[..part.len() - 5])
    } else {
        None
    }
}

// The place of the first `@`.
fn at_sign(text: &[u8]) -> Option<usize>
    ensures { result ≡ position (λ b. b == 64) text.now }
{
    text.iter().position(|byte| *byte == b'@')
}

// A name, with what comes after the `@` as its date.
fn with_date(text: &[u8], at: Option<usize>) -> Option<FileName<'_>>
    requires { at ≡ position (λ b. b == 64) text.now }
    ensures { option_map name_of_file result ≡ with_date text.now at }
{
    let Some(at) = at else {
        return Some(FileName {
            name: text,
            date: None,
        });
    };
    let date = &text[at + 1..];
    if !is_date(date) {
        return None;
    }
    Some(FileName {
        name: &text[..at],
        date: Some(date),
    })
}

// The name and the date of a text before `.yang`.
fn named_stem(text: &[u8]) -> Option<FileName<'_>>
    ensures { option_map name_of_file result ≡ named_stem text.now }
{
    with_date(text, at_sign(text))
}

/// The name and the date that the last part of a path writes.
pub(crate) fn name_in_path(path: &[u8]) -> Option<FileName<'_>>
    ensures { option_map name_of_file result ≡ name_in_path path.now }
{
    named_stem(stem(last_part(path))?)
}
