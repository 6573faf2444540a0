//! What the definitions of a file, and the file itself, have to say of themselves.
ghost use Rattle.std.specs.Prelude.{◌≡◌, ◌+◌, ℕ, List};
ghost use Rattle.yv_text_statement.specs.{Tree.{Tree, count}, declared.keyword.Keyword.{Keyword}};
ghost use Rattle.yv_link_scopes.specs.Files.{is_module, module_name};
ghost use Rattle.yv_lint.specs.{Definitions.{is_nested, is_unused, own_prefix}, InnerPlaces.{place_of}, InnerUses.{Tells}, Rules.{is_definition, lacks_description, lacks_header}};

use crate::place::Place;
use crate::statements::{child, child_name, has_child};
use crate::use_set::UseSet;
use yv_link_scopes::name_of;
use yv_text_statement::{Keyword, Statement};

// Whether a root is that of a module.
fn is_module(root: &Statement<'_>) -> bool
    ensures { result ≡ is_module root.now }
{
    root.is(Keyword::Module)
}

/// The name of the module to which a file belongs.
pub fn module_name<'a>(root: &'a Statement<'_>) -> &'a str
    ensures { result.now ≡ module_name root.now }
{
    if is_module(root) {
        return name_of(root);
    }
    for one in root.children() {
        if one.is(Keyword::BelongsTo) {
            return name_of(one);
        }
    }
    ""
}

/// The prefix of a file for its own module.
pub fn own_prefix<'a>(root: &'a Statement<'_>) -> &'a str
    ensures { result.now ≡ own_prefix root.now }
{
    if is_module(root) {
        return child_name(root, Keyword::Prefix);
    }
    match child(root, Keyword::BelongsTo) {
        None => "",
        Some(one) => child_name(one, Keyword::Prefix),
    }
}

/// Whether a file lacks something that its users look for first.
pub fn lacks_header(root: &Statement<'_>) -> bool
    ensures { result ≡ lacks_header root.now }
{
    !(has_child(root, Keyword::Organization)
        && has_child(root, Keyword::Contact)
        && has_child(root, Keyword::Description))
}

// Whether its statements define something for others.
fn is_definition(keyword: Keyword) -> bool
    ensures { result ≡ is_definition keyword }
{
    matches!(
        keyword,
        Keyword::Typedef
            | Keyword::Grouping
            | Keyword::Identity
            | Keyword::Feature
            | Keyword::Extension
            | Keyword::Rpc
            | Keyword::Action
            | Keyword::Notification
    )
}

/// Whether a definition doesn't say what it is for.
pub fn lacks_description(statement: &Statement<'_>) -> bool
    ensures { result ≡ lacks_description statement.now }
{
    is_definition(statement.kind()) && !has_child(statement, Keyword::Description)
}

// Whether a statement with this keyword isn't at the top.
fn is_nested(place: &Place<'_, '_>, definition: Keyword) -> bool
    ensures { (before : List Tree) → result ≡ is_nested definition (place_of before place.now) }
{
    place.statement.is(definition) && !place.is_top
}

/// Whether a statement that isn't at the top defines what no statement in the same block, or below,
/// uses.
pub fn is_unused<'a>(place: &Place<'a, '_>, definition: Keyword, uses: &UseSet<'a>) -> bool
    ensures { (use_of_it : Keyword) (own : List ℕ) (before : List Tree)
        → Tells use_of_it own uses.now place.now.start place.now.parent.now.children
        → place.now.end ≡ place.now.start + count place.now.parent.now.children
        → result ≡ is_unused definition use_of_it own (place_of before place.now) }
{
    is_nested(place, definition)
        && !uses.has_between(name_of(place.statement), place.start, place.end)
}
