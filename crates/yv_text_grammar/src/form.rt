//! Which form the argument of each statement has.
ghost use Rattle.std.specs.Prelude.{◌≡◌};
ghost use Rattle.yv_text_grammar.specs.Forms.{form_of};

use yv_text_statement::Keyword;

/// The form of an argument.
#[derive(Clone, Copy, PartialEq, Eq, Debug)]
pub enum Form {
    Identifier,
    /// An identifier, perhaps with a prefix.
    Name,
    EnumName,
    Version,
    Boolean,
    Status,
    OrderedBy,
    Modifier,
    Date,
    /// A number in 32 bits without a sign.
    Unsigned,
    MaxElements,
    /// A number in 32 bits with a sign.
    EnumValue,
    FractionDigits,
    Key,
    Unique,
    DescendantPath,
    AbsolutePath,
    LeafrefPath,
    /// An if-feature expression.
    IfFeature,
    /// Any text.
    Text,
    /// No argument at all.
    Absent,
}

/// The form of the argument of a statement, in the block of a parent (RFC 7950, section 14).
#[tactic(auto, unfolding(crate::specs::Forms::form_of))]
pub fn find_form(parent: Keyword, keyword: Keyword) -> Form
    ensures { result ≡ form_of parent keyword }
{
    match keyword {
        Keyword::Module
        | Keyword::Submodule
        | Keyword::Prefix
        | Keyword::Import
        | Keyword::Include
        | Keyword::BelongsTo
        | Keyword::Typedef
        | Keyword::Container
        | Keyword::Leaf
        | Keyword::LeafList
        | Keyword::List
        | Keyword::Choice
        | Keyword::Case
        | Keyword::Anydata
        | Keyword::Anyxml
        | Keyword::Grouping
        | Keyword::Rpc
        | Keyword::Action
        | Keyword::Notification
        | Keyword::Identity
        | Keyword::Feature
        | Keyword::Extension
        | Keyword::Argument
        | Keyword::Bit => Form::Identifier,
        Keyword::Type | Keyword::Uses | Keyword::Base => Form::Name,
        Keyword::Enum => Form::EnumName,
        Keyword::YangVersion => Form::Version,
        Keyword::Config | Keyword::Mandatory | Keyword::RequireInstance | Keyword::YinElement =>
            Form::Boolean,
        Keyword::Status => Form::Status,
        Keyword::OrderedBy => Form::OrderedBy,
        Keyword::Modifier => Form::Modifier,
        Keyword::Revision | Keyword::RevisionDate => Form::Date,
        Keyword::MinElements | Keyword::Position => Form::Unsigned,
        Keyword::MaxElements => Form::MaxElements,
        Keyword::Value => Form::EnumValue,
        Keyword::FractionDigits => Form::FractionDigits,
        Keyword::Key => Form::Key,
        Keyword::Unique => Form::Unique,
        Keyword::Refine => Form::DescendantPath,
        Keyword::Augment => {
            if parent == Keyword::Uses {
                Form::DescendantPath
            } else {
                Form::AbsolutePath
            }
        }
        Keyword::Path => Form::LeafrefPath,
        Keyword::IfFeature => Form::IfFeature,
        Keyword::Input | Keyword::Output => Form::Absent,
        _ => Form::Text,
    }
}
