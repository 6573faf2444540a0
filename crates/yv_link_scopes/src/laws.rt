//! Laws about the definitions only.
ghost use Rattle.std.specs.Prelude.{◌≡◌, ◌<◌, ◌≤◌, ℕ, List, Option, Some, map, length, slice_get};
ghost use Rattle.yv_text_statement.specs.Tree.{Tree};
ghost use Rattle.yv_link_scopes.specs.{declared.kind.NameKind.{NameKind}, Files.{Files, Briefs, brief_of, module_file_at, file_named}, Rows.{Row}, RowList.{rows_of, statements_of}, Blocks.{StandsIn}, Order.{FollowOffsets}, Scopes.{AreNested, MeansIn, module_of}};
ghost use Rattle.yv_text_statement.specs.Offsets.{IsInOrder};

/// The name of a typedef or of a grouping means one thing in a statement.
pub fn a_name_means_one_thing()
    ensures { (files : Briefs) (rows : List Row) (kind : NameKind) (number : ℕ) (name : List ℕ)
        (d e : Option ℕ)
        → MeansIn files rows kind number name d → MeansIn files rows kind number name e → d ≡ e }
{}

/// It means something, or is known to mean nothing, in each statement of files.
pub fn a_name_means_something_or_nothing()
    ensures { (files : Files) (kind : NameKind) (number : ℕ) (name : List ℕ)
        → (d : Option ℕ) × MeansIn (map brief_of files) (rows_of files) kind number name d }
{}

/// Each statement of files is in an earlier block, or is a root.
pub fn blocks_are_nested()
    ensures { (files : Files) → AreNested (rows_of files) }
{}

/// Each statement is one of the files, whose roots come first and have their numbers.
pub fn roots_come_first()
    // There are at least as many statements as files.
    ensures count { (files : Files) → length files ≤ length (rows_of files) }
    // The root of a file has the number of the file.
    ensures roots { (files : Files) (n : ℕ) (t : Tree) → slice_get files n ≡ Some t
        → slice_get (rows_of files) n ≡ Some (record { file = n; scope = n; head = t.head }) }
    // The file of each statement is one of the files.
    ensures files { (files : Files) (number : ℕ) (r : Row) → slice_get (rows_of files) number
        ≡ Some r → r.file < length files }
{}

/// What is found by a name or a prefix is one of the files.
pub fn modules_are_files()
    // What a name names is one of the files.
    ensures names { (files : Briefs) (name : List ℕ) (m : ℕ) → file_named files name ≡ Some m → m
        < length files }
    // The file of the module that a prefix identifies is one of them.
    ensures prefixes { (files : Briefs) (rows : List Row) (file : ℕ) (prefix : List ℕ) (m : ℕ)
        → module_of files rows file prefix ≡ Some m → m < length files }
    // So is the file of the module to which a file belongs.
    ensures module_files { (files : Briefs) (n : ℕ) → n < length files → module_file_at files n
        < length files }
{}

/// The statement of a number has the head of the row of that number.
pub fn statements_have_their_rows()
    ensures { (files : Files) → map (λ t. t.head) (statements_of files)
        ≡ map (λ r. r.head) (rows_of files) }
{}

/// The statement at the number of a statement's block is the one round it; at the top of a file it
/// is the module_file's root.
pub fn statements_stand_in_their_blocks()
    ensures { (files : Files) (number : ℕ) → length files ≤ number → StandsIn files number }
{}

/// Where the statements of a file are in order, their numbers follow their offsets.
pub fn numbers_follow_offsets()
    ensures { (files : Files) (file : ℕ) (root : Tree) → slice_get files file ≡ Some root
        → IsInOrder root → FollowOffsets (rows_of files) file }
{}
