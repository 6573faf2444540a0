//! The plain types of types, and what readers ask of them.
ghost use Rattle.std.specs.{Prelude.{◌≡◌, ◌≢◌, ◌↔◌, ℕ, Some, Err, IfOk, IfErr, length}, Option.{option_map, option_copied}};
ghost use Rattle.yv_text_statement.specs.{Order.{IsLeast}, declared.refusal.Stop.TheVariants.{Fault, PatternBuild}};
ghost use Rattle.yv_link_scopes.specs.{Files.{Files}, Views.{lent_in}};
ghost use Rattle.yv_type_chains.specs.Bases.{AreBases};
ghost use Rattle.yv_values.specs.Types.{Plain, plain_of};

use crate::step::type_at;
use crate::table::get;
use std::alloc::Global;
use yv_base_tables::Table;
use yv_link_scopes::Rows;
use yv_pattern::Patterns;
use yv_text_statement::{Refusal, Stop, lesser};
use yv_type_chains::Bases;
use yv_values::PlainType;

/// The plain types of the types of files that lead to numbers, texts, octets, a truth value or
/// empty, and what is wrong with their restrictions.
#[derive(Drop)]
pub struct PlainTypes {
    pub(crate) types: Table<PlainType>,
    pub(crate) fault: Option<Refusal>,
}

impl PlainTypes {
    ghost use Rattle.yv_type_restrictions.specs.{Types.{HasPlainType, HasTypePattern}, Refusals.{BadFaceted}, PlainTypes.{AreFaceted}};
    ghost use Rattle.yv_type_restrictions.specs.InnerStops.{StopsWhere};

    /// Reads the types of these statements, the bases being theirs. `PatternBuild` says that
    /// `regex` doesn't build the translation of a pattern of the dialect; no refusal is an error
    /// here. Equal patterns are built once, and the types share them. It takes time linear in the
    /// statements except for what `narrowed` says of each type.
    pub fn read(alloc: Global, rows: &Rows<'_, '_>, bases: &Bases) -> Result<PlainTypes, Stop>
        // They are the plain types of numbers, texts and octets of these files, along typedefs.
        ensures makes { IfOk result
            (λ faceted. (files : Files) → lent_in rows.now ≡ files → AreBases files bases.now
            → AreFaceted files faceted) }
        // No refusal is an error here.
        ensures faultless { (r : Refusal) → result ≢ Err (Fault r) }
        // `PatternBuild` is returned only if a type has a pattern.
        ensures builds { result ≡ Err PatternBuild → HasTypePattern (lent_in rows.now) }
    {
        yv_link_scopes::laws::statements_have_their_rows();
        let order = bases.order();
        let mut types = Table::new(alloc);
        let mut fault = None;
        let mut patterns = Patterns::new(alloc);
        for number in order {
            let step = match type_at(alloc, &mut patterns, rows, bases, &types, *number) {
                Ok(step) => step,
                Err(stop) => return Err(stop),
            };
            fault = lesser(fault, step.fault);
            types.put(*number, step.plain)?;
        }
        Ok(PlainTypes { types, fault })
    }

    /// The plain type of the type of this number. None for other statements, and for types that
    /// lead to an enumeration, bits, an identityref, an instance-identifier, a leafref or a union.
    pub fn plain(&self, number: usize) -> Option<&PlainType>
        ensures { (files : Files) → AreFaceted files self.now
            → (p : Plain) → (option_map plain_of (option_copied result) ≡ Some p)
            ↔ HasPlainType files number p }
    {
        get(&self.types, number)
    }

    /// The least that is wrong with the ranges, lengths and patterns of the types. A type whose
    /// restriction is refused is as the type that it follows, so that those derived from it are
    /// judged by that. None where nothing is wrong.
    pub fn refusal(&self) -> Option<Refusal>
        ensures { (files : Files) → AreFaceted files self.now → IsLeast (BadFaceted files) result }
    {
        self.fault
    }
}
