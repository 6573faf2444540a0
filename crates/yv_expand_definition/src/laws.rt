//! Laws about the definitions only. These functions do nothing: the contract of each is the law.
ghost use Rattle.std.specs.{Prelude.{◌≡◌, ◌<◌, ℕ, Bool, false, List, Some, slice_get}, List.{Contains}};
ghost use Rattle.yv_text_statement.specs.{Order.{refusal_at}, declared.refusal.Refusal.{Refusal}, Selection.{ModuleChoice}};
ghost use Rattle.yv_link_scopes.specs.{Files.{Files}, RowList.{rows_of}, Rows.{Row}};
ghost use Rattle.yv_expand_statements.specs.StatementBlocks.{is_node_or_uses};
ghost use Rattle.yv_expand_statements.specs.FileOrder.{marks_of, order_of};
ghost use Rattle.yv_expand_definition.specs.{Expansion.{Expand}, Gives.{Gives, Product, Reaches, Wrong, nothing}, Remains.{AreNodes}, Nodes.{Forest, Node, nodes_given, insert, join, none}, Paths.{End, Leads, Step, at, node_at_end}, Refusals.{BadExpanded, IsWrong}};

/// A path leads to one node, with what is below it, or to a case that is left out; one exchange
/// there makes one tree, and any exchange makes one (RFC 7950, section 6.5).
pub fn a_path_has_one_end()
    // A path leads to at most one node, with what is below it.
    ensures node { (in_choice : Bool) (path : List Step) (nodes there other : Forest) (d e : End)
        → Leads in_choice path nodes d there
        → Leads in_choice path nodes e other → node_at_end d ≡ node_at_end e }
    // One exchange there makes one tree.
    ensures exchange { (in_choice : Bool) (path : List Step) (nodes there other : Forest) (e : End)
        → Leads in_choice path nodes e there
        → Leads in_choice path nodes e other → there ≡ other }
    // Any exchange can be made.
    ensures any { (in_choice : Bool) (path : List Step) (nodes below put there other_below : Forest)
        (target is other : Node)
        → Leads in_choice path nodes (at target below is put) there
        → (last : Forest) × Leads in_choice path nodes (at target below other other_below) last }
{}

/// Statements give one list of nodes at most, and one list of refusals.
pub fn statements_give_one_tree()
    ensures { (files : Files) (module_file : ℕ) (under numbers : List ℕ) (m n : Product)
        → Gives files module_file under numbers m
        → Gives files module_file under numbers n → m ≡ n }
{
    yv_link_scopes::laws::a_name_means_one_thing();
}

/// Files expand to one tree at most, and to one list of refusals.
pub fn files_expand_to_one_tree()
    ensures { (files : Files) (marks : List Bool) (order : List ℕ) (m n : Product)
        → Expand files marks order m → Expand files marks order n
        → m ≡ n }
{
    yv_link_scopes::laws::a_name_means_one_thing();
}

/// What two augments of modules give to one node is in one order, whichever of them is applied
/// first (RFC 7950, section 7.17).
pub fn the_round_does_not_matter()
    ensures { (first second : ℕ) → first < second → (of_first of_second there : Forest)
        → insert first (nodes_given first of_first)
        (insert second (nodes_given second of_second) there)
        ≡ insert second (nodes_given second of_second)
        (insert first (nodes_given first of_first) there) }
{}

/// Where no statement is that of a node, an operation or a uses, none is given. An augment that
/// gives no nodes leaves its target as it was, and has no turn that matters to others (RFC 7950,
/// section 7.17).
pub fn what_gives_no_nodes_changes_none()
    // Statements without a node, an operation or a `uses` give nothing.
    ensures gives { (files : Files) (module_file : ℕ) (under numbers : List ℕ) (m : Product)
        → Gives files module_file under numbers m
        → ((k : ℕ) (r : Row) → Contains numbers k → slice_get (rows_of files) k ≡ Some r
        → is_node_or_uses r ≡ false) → m ≡ nothing }
    // An augment that adds no nodes leaves its target as it was.
    ensures adds { (files : Files) (module_file augment : ℕ) (nodes there : Forest) (target : Node)
        → Reaches files module_file augment (λ below. join below none) nodes there target → there
        ≡ nodes }
    // So does an augment of a `uses` that gives none.
    ensures inserts { (files : Files) (module_file augment : ℕ) (nodes there : Forest)
        (target : Node)
        → Reaches files module_file augment (insert augment (nodes_given augment none)) nodes there
        target → there ≡ nodes }
{}

/// The schema of files has one list of nodes at most: those that are left when the conditions were
/// asked (RFC 7950, section 7.20.2).
pub fn files_have_one_schema()
    ensures { (choice : ModuleChoice) (files : Files) (first second : Forest)
        → AreNodes choice files first → AreNodes choice files second → first ≡ second }
{
    yv_link_scopes::laws::a_name_means_one_thing();
}

/// What is refused is refused of what the files expand to, which is one.
pub fn refusals_are_of_the_expansion()
    ensures { (choice : ModuleChoice) (files : Files) (m : Product) (f : Refusal)
        → Expand files (marks_of choice files) (order_of choice files) m
        → BadExpanded choice files f → (wrong : Wrong) × IsWrong files m wrong × (row : Row)
        × (slice_get (rows_of files) wrong.statement ≡ Some row)
        × (f ≡ refusal_at wrong.code row.file row.head) }
{
    yv_link_scopes::laws::a_name_means_one_thing();
}
