//! Places in a document.
ghost use Rattle.std.specs.{Prelude.{◌≡◌, IfOk, string_bytes}, Option.{option_map}, Rc.{rc_str_bytes}};
ghost use Rattle.yv_nodes.specs.Member.{behind};
ghost use Rattle.yv_data_leafrefs.specs.Place.{step_name};

use std::alloc::{AllocError, Global};
use std::marker::Model;
use std::rc::RcStr;
use yv_node_content::NodeKind;
use yv_nodes::Node;

/// What a member is called, in parts that the schema has.
#[derive(Clone, Copy)]
pub struct MemberName<'s> {
    /// The name of the module, where the member is written with it.
    pub module: Option<&'s str>,
    /// The name without its module, or all that the document has where it names no node.
    pub name: &'s str,
    /// Whether it is a choice, which no member writes: its name is in parentheses.
    pub is_choice: bool,
}

/// A step of a path: a member's name, and its number from 1 where it is an entry or an item of an
/// array. Names of the schema are shared with it, since a name may be as long as its file, and many
/// faults may lie below it.
#[derive(Drop)]
pub struct Step {
    /// The name of the module, where the member is written with it.
    module: Option<RcStr>,
    /// The name without its module, or all that the document has where it names no node.
    name: RcStr,
    /// Whether it is a choice, which no member writes: its name is in parentheses.
    is_choice: bool,
    /// The number from 1 of the entry or item.
    pub item: Option<u64>,
}

impl Model for Step {
    ghost use Rattle.std.specs.{Option.{option_map}, Rc.{rc_str_bytes}};
    ghost use Rattle.yv_data_leafrefs.specs.Place.{Place, member_text};

    ghost Value = { Place };

    ghost view = { λ s. record { member = member_text s.is_choice (option_map rc_str_bytes s.module) (rc_str_bytes s.name); item = s.item } };
}

impl Step {
    ghost use Rattle.yv_data_leafrefs.specs.Place.{member_text};

    /// A member of this name without a module, as one that names no node; with its number from 1,
    /// where it is an entry or an item.
    pub fn of_name(name: RcStr, item: Option<u64>) -> Step
        ensures { result ≡ record { member = rc_str_bytes name; item = item } }
    {
        Step {
            module: None,
            name,
            is_choice: false,
            item,
        }
    }

    /// A node, over the names of the schema; with its number from 1, where it is an entry or an
    /// item.
    pub fn of(node: &Node, item: Option<u64>) -> Result<Step, AllocError>
        ensures { IfOk result
            (λ step. step ≡ record { member = step_name node.now.label; item = item }) }
    {
        Ok(Step {
            module: node.shared_qualifier()?,
            name: node.shared_name()?,
            is_choice: matches!(node.kind(), NodeKind::Choice),
            item,
        })
    }

    /// The parts of the member's name. It takes no memory.
    pub fn parts(&self) -> MemberName<'_>
        ensures { self.now.member
            ≡ member_text result.is_choice (option_map (λ m. m.now) result.module) result.name.now }
    {
        MemberName {
            module: text_of(&self.module),
            name: self.name.as_str(),
            is_choice: self.is_choice,
        }
    }

    /// The member's name, with its module in front where it is written with it; that of a choice in
    /// parentheses. The text is made anew.
    pub fn member(&self, alloc: Global) -> Result<String, AllocError>
        ensures { IfOk result (λ text. string_bytes text ≡ self.now.member) }
    {
        let name = qualified_name(alloc, &self.module, self.name.as_str())?;
        if !self.is_choice {
            return Ok(name);
        }
        let mut text = String::from_str(alloc, "(")?;
        text.push_str(name.as_str())?;
        text.push(')')?;
        Ok(text)
    }
}

// A shared text, where there is one.
fn text_of(shared: &Option<RcStr>) -> Option<&str>
    ensures { option_map (λ t. t.now) result ≡ option_map rc_str_bytes shared.now }
{
    match shared {
        Some(text) => Some(text.as_str()),
        None => None,
    }
}

fn qualified_name(
    alloc: Global,
    module_name: &Option<RcStr>,
    name: &str,
) -> Result<String, AllocError>
    ensures { IfOk result
        (λ text. string_bytes text ≡ behind (option_map rc_str_bytes module_name.now) name.now) }
{
    let mut text = String::new(alloc);
    if let Some(module) = module_name {
        text.push_str(module.as_str())?;
        text.push(':')?;
    }
    text.push_str(name)?;
    Ok(text)
}
