//! Laws about the definitions only. These functions do nothing: the contract of each is the law.
ghost use Rattle.yv_link_scopes.specs.{Files.{Files}, RowList.{rows_of}, Rows.{Row}};
ghost use Rattle.yv_type_restrictions.specs.Types.{HasTypePattern};
ghost use Rattle.yv_note_patterns.specs.PatternFailure.{IsPatternAmong};

use yv_link_scopes::laws::statements_have_their_rows;

/// A pattern of a type is among the numbered statements of the files.
pub(crate) fn a_pattern_of_a_type_is_listed()
    ensures { (files : Files) → HasTypePattern files → (r : Row)
        × IsPatternAmong (rows_of files) r }
{
    statements_have_their_rows();
}
