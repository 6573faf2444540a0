//! The findings in a file, in the order of its text.
ghost use Rattle.std.specs.Prelude.{◌≡◌, ◌++◌, List, [], OnOk};
ghost use Rattle.yv_text_statement.specs.Tree.{Tree, Then, End};
ghost use Rattle.yv_lint.specs.{RuleChoice.{asked_in}, Definitions.{own_prefix}, Findings.{findings_in}, InnerPlaces.{IsEarlier, place_of}, InnerUses.{AreUses, KnowsBlock}, Places.{places_in, places_of}, Rules.{stands_at, stands_at_root}};

use crate::file::{File, finding_at};
use crate::finding::Finding;
use crate::place::{Earlier, Place};
use crate::rule::{RULES, Rule};
use crate::statements::is_extended;
use std::alloc::AllocError;
use yv_text_statement::Statement;

impl<'a, 'b, 'c> File<'a, 'b, 'c> {
    ghost use Rattle.yv_lint.specs.InnerFindings.{findings_among, findings_at_places};

    // Adds those of these rules that are asked and stand at a place.
    fn add_those(
        &self,
        rules: &[Rule],
        place: &Place<'a, 'b>,
        findings: &mut Vec<Finding>,
    ) -> Result<(), AllocError>
        requires { KnowsBlock (own_prefix self.now.root.now) self.now.uses place.now.start
            place.now.end place.now.parent.now.children }
        ensures { (before : List Tree) → IsEarlier before place.now.earlier
            → OnOk result (findings.new.items ≡ findings.old.items
            ++ findings_among self.now rules.now
            (stands_at self.now.question.now.roots.now self.now.root.now
            (place_of before place.now))
            place.now.statement.now.head) }
    {
        for rule in rules {
            if self.is_asked(*rule) && self.stands(place, *rule) {
                findings.push(finding_at(self.number, place.statement, *rule))?;
            }
        }
        Ok(())
    }

    // The same of the root; the file has this path.
    fn add_those_at_root(
        &self,
        rules: &[Rule],
        path: &str,
        findings: &mut Vec<Finding>,
    ) -> Result<(), AllocError>
        ensures { OnOk result (findings.new.items ≡ findings.old.items
            ++ findings_among self.now rules.now
            (stands_at_root path.now self.now.root.now) self.now.root.now.head) }
    {
        for rule in rules {
            if self.is_asked(*rule) && self.stands_at_root(path, *rule) {
                findings.push(finding_at(self.number, self.root, *rule))?;
            }
        }
        Ok(())
    }

    // Adds the findings at a place, whose statement has this number, and below it.
    fn add(
        &self,
        place: &Place<'a, 'b>,
        number: usize,
        findings: &mut Vec<Finding>,
    ) -> Result<(), AllocError>
        requires block { KnowsBlock (own_prefix self.now.root.now) self.now.uses place.now.start
            place.now.end place.now.parent.now.children }
        requires number { AreUses (own_prefix self.now.root.now) self.now.uses number
            (Then place.now.statement.now.head place.now.statement.now.children End) }
        ensures { (before : List Tree) → IsEarlier before place.now.earlier
            → OnOk result (findings.new.items ≡ findings.old.items ++ findings_at_places self.now
            (places_in place.now.parent.now place.now.is_top before
            (Then place.now.statement.now.head place.now.statement.now.children End))) }
    {
        let parent = place.statement;
        if is_extended(parent) {
            return Ok(());
        }
        self.add_those(&RULES, place, findings)?;
        let end = self.uses.end(number);
        let mut earlier = Earlier::none();
        let start = number + 1;
        let mut next = start;
        for child in parent.children() {
            let inner = Place {
                statement: child,
                parent,
                is_top: false,
                earlier,
                start,
                end,
            };
            self.add(&inner, next, findings)?;
            next = self.uses.end(next);
            earlier.note(child);
        }
        Ok(())
    }

    // Adds the findings below the root.
    fn add_block(&self, findings: &mut Vec<Finding>) -> Result<(), AllocError>
        ensures { OnOk result (findings.new.items ≡ findings.old.items
            ++ findings_at_places self.now (places_of self.now.root.now)) }
    {
        let parent = self.root;
        let end = self.uses.end(0);
        let mut earlier = Earlier::none();
        let mut next = 1;
        for child in parent.children() {
            let inner = Place {
                statement: child,
                parent,
                is_top: true,
                earlier,
                start: 1,
                end,
            };
            self.add(&inner, next, findings)?;
            next = self.uses.end(next);
            earlier.note(child);
        }
        Ok(())
    }

    /// Adds the findings in the file, which has this path.
    pub fn add_all(&self, path: &str, findings: &mut Vec<Finding>) -> Result<(), AllocError>
        ensures { OnOk result (findings.new.items ≡ findings.old.items
            ++ findings_in (asked_in self.now.question.now.rules.now)
            self.now.question.now.roots.now self.now.number path.now self.now.root.now) }
    {
        self.add_those_at_root(&RULES, path, findings)?;
        self.add_block(findings)
    }
}
