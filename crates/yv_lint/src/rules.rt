//! Sets of rules.
ghost use Rattle.std.specs.{Prelude.{◌≡◌, IsTrue, IfSome, is_some}, List.{list_any}, Str.{bytes_eq}};
ghost use Rattle.yv_lint.specs.{declared.rule.Rule.{Rule}, RuleChoice.{asked_in}, Rules.{name_of}, RuleNames.{are_names, is_name, is_named}};

use crate::rule::{COUNT, RULES, Rule};

// Whether one of the rules has this name.
fn is_name_among(rules: &[Rule], name: &str) -> bool
    ensures { result ≡ list_any (λ rule. bytes_eq name.now (name_of rule)) rules.now }
{
    for rule in rules {
        if name == rule.name() {
            return true;
        }
    }
    false
}

// Whether a rule has this name.
fn is_name(name: &str) -> bool
    ensures { result ≡ is_name name.now }
{
    is_name_among(&RULES, name)
}

// Whether each name in a list is a rule's.
fn are_names(names: &str) -> bool
    ensures { result ≡ are_names names.now }
{
    names.split(',').all(|name| is_name(name))
}

// Whether a rule is named in a list.
fn is_named(names: &str, rule: Rule) -> bool
    ensures { result ≡ is_named names.now rule }
{
    let own = rule.name();
    names.split(',').any(|name| name == own)
}

/// A set of rules: those that are asked.
#[derive(Debug, Drop)]
pub struct Rules {
    marks: [bool; COUNT],
}

impl Rules {
    /// All rules.
    pub fn all() -> Rules
        ensures { (rule : Rule) → IsTrue (asked_in result rule) }
    {
        Rules {
            marks: [true; COUNT],
        }
    }

    /// The rules of a list of names with commas between. None where one of the names, or an empty
    /// one, is that of no rule. A name may be there twice.
    pub fn read(names: &str) -> Option<Rules>
        // Each name has to be that of a rule.
        ensures known { is_some result ≡ are_names names.now }
        // A rule is asked exactly if it is named.
        ensures asked { IfSome result
            (λ rules. (rule : Rule) → asked_in rules rule ≡ is_named names.now rule) }
    {
        if are_names(names) {
            Some(Rules::named_in(names))
        } else {
            None
        }
    }

    // The rules that are named in a list.
    fn named_in(names: &str) -> Rules
        ensures { (rule : Rule) → asked_in result rule ≡ is_named names.now rule }
    {
        Rules {
            marks: [
                is_named(names, Rule::FileName),
                is_named(names, Rule::NoRevision),
                is_named(names, Rule::IncompleteHeader),
                is_named(names, Rule::StatementOrder),
                is_named(names, Rule::UnusedImport),
                is_named(names, Rule::VersionMix),
                is_named(names, Rule::NoSuchDate),
                is_named(names, Rule::RevisionOrder),
                is_named(names, Rule::Version11),
                is_named(names, Rule::MinAboveMax),
                is_named(names, Rule::UnusedTypedef),
                is_named(names, Rule::UnusedGrouping),
                is_named(names, Rule::PatternAnchor),
                is_named(names, Rule::NoDescription),
            ],
        }
    }

    /// Whether a rule is asked.
    pub fn has(&self, rule: Rule) -> bool
        ensures { result ≡ asked_in self.now rule }
    {
        self.marks[rule.index()]
    }
}
