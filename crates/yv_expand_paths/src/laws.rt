//! Laws about the definitions only.
ghost use Rattle.std.specs.{Prelude.{◌≡◌, ◌<◌, ◌≤◌, ◌+◌, ◌↔◌, ℕ, List, Some, codes, length}, Option.{option_map}};
ghost use Rattle.yv_link_scopes.specs.{Files.{Briefs}, Names.{local_of}, Rows.{Row}};
ghost use Rattle.yv_expand_paths.specs.{InnerNameNumbers.{number_of, number_at, qualified_name}, InnerSteps.{step_of, step_number}};
ghost use Rattle.yv_expand_statements.specs.Paths.{module_file_of};

/// Two names have one number only if they are one.
pub fn a_number_has_one_name()
    ensures { (rows : List Row) (a b : List ℕ) (number : ℕ) → number_of rows a ≡ Some number
        → number_of rows b ≡ Some number → a ≡ b }
{}

/// The node of each statement has a numbered name, and so have an operation's input and output.
pub fn names_are_numbered()
    // The node of each statement has a numbered name.
    ensures numbers { (rows : List Row) (statement : ℕ) → statement < length rows
        → (number : ℕ) × (number_at rows statement ≡ Some number) }
    // So has the input of an operation.
    ensures input { (rows : List Row) → (number : ℕ)
        × (number_of rows (codes "input") ≡ Some number) }
    // So has the output.
    ensures output { (rows : List Row) → (number : ℕ)
        × (number_of rows (codes "output") ≡ Some number) }
    // There are at most two more names than statements.
    ensures within { (rows : List Row) (name : List ℕ) (number : ℕ) → number_of rows name
        ≡ Some number → number < length rows + 2 }
{}

/// One number is that of one module and one name.
pub fn a_qualified_name_is_one()
    ensures { (module_file name other_module_file other_name : ℕ) → name < 4294967296 → other_name
        < 4294967296
        → qualified_name module_file name ≡ qualified_name other_module_file other_name
        → (module_file ≡ other_module_file) × (name ≡ other_name) }
{}

/// A step has the number of those nodes that have its name and belong to its module, and no other.
pub fn a_step_has_its_nodes_number()
    ensures { (files : Briefs) (rows : List Row) (file own module_file : ℕ) (text name : List ℕ)
        (number : ℕ) → length rows ≤ 4294967293
        → number_of rows name ≡ Some number
        → (option_map (step_number own) (step_of files rows file text)
        ≡ Some (qualified_name module_file number))
        ↔ ((module_file_of files rows file own text ≡ Some module_file) × (local_of text ≡ name)) }
{}
