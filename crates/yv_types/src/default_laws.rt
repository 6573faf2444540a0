//! Laws about the definitions only.
ghost use Rattle.std.specs.Prelude.{◌≡◌, ℕ, List, Option, Some, map, slice_get};
ghost use Rattle.yv_link_scopes.specs.{Files.{Brief, Files, brief_of}, RowList.{rows_of}, Scopes.{module_of as file_of}};
ghost use Rattle.yv_text_statement.specs.TextInFile.{TextInFile};
ghost use Rattle.yv_values.specs.Scopes.{module_of};
ghost use Rattle.yv_types.specs.{Defaults.{HasDefault}, Scopes.{bindings_in}};

/// A type has one default by its typedefs, or none.
pub fn a_type_has_one_default()
    ensures { (files : Files) (k : ℕ) (v w : Option TextInFile) → HasDefault files k v
        → HasDefault files k w → v ≡ w }
{
    yv_link_scopes::laws::a_name_means_one_thing();
}

/// A prefix that is declared for the module of a file means that file's name where texts are read.
pub fn a_prefix_stands_for_its_module()
    ensures { (files : Files) (file m : ℕ) (prefix : List ℕ) (f : Brief)
        → file_of (map brief_of files) (rows_of files) file prefix ≡ Some m
        → slice_get (map brief_of files) m ≡ Some f → module_of (bindings_in files file) prefix
        ≡ Some f.name }
{}
