//! Laws about the definitions only. These functions do nothing: the contract of each is the law.
ghost use Rattle.std.specs.Prelude.{◌≡◌, ◌≤◌, ◌∷◌, [], ℕ, Bool, List, Some, None, true};
ghost use Rattle.yv_nodes.specs.{Rows.{Rows}, Tree.{Forest, Label}};
ghost use Rattle.yv_tree.specs.{Columns.{Sheet, width}, Diagram.{diagram_lines, diagram_of}, DrawnDiagram.{drawn_lines, levels}, DrawnModules.{diagrams_of}, LawWords.{HasLineOf, TypeBegins, is_typed, plain_drawing, text_or_missing}};
ghost use Rattle.yv_tree_drawing.specs.Steps.{Step};

/// A drawing without a limit, a way and columns shows all: it is the diagram, line by line.
pub fn plain_shows_all()
    // The lines of the plain drawing are those of the diagram.
    ensures { (s : Rows) (name : List ℕ) (own : ℕ)
        → drawn_lines s name own plain_drawing ≡ diagram_lines s name own }
{}

/// A drawing with as many levels as the schema has shows all levels.
pub fn enough_levels_show_all()
    // With a limit that is at least the number of levels of the schema, and at least 1, the lines
    // are those without a limit, whatever part is shown, and in columns or not.
    ensures { (s : Rows) (name : List ℕ) (own levels_shown : ℕ) (below : List Step) (columns : Bool)
        → 1 ≤ levels_shown → levels s ≤ levels_shown
        → drawn_lines s name own
        (record { depth = Some levels_shown; below = below; columns = columns })
        ≡ drawn_lines s name own (record { depth = None; below = below; columns = columns }) }
{}

/// The plain drawing of one module is its diagram.
pub fn one_module_is_plain()
    // Of one name, however many files were named, the plain drawing is the text of the diagram; or
    // the module is missing.
    ensures { (s : Rows) (name : List ℕ) (files : ℕ)
        → diagrams_of s
        (record { modules = name ∷ []; named_files = files; drawing = plain_drawing })
        ≡ text_or_missing (diagram_of s name) }
{}

/// The types of a group of nodes begin in one column.
pub fn types_begin_in_one_column()
    // Of each node of a group that has a line and a type, the type begins at the same offset from
    // the margin, with at least three blanks before it.
    ensures { (sheet : Sheet) (ts : Forest) (l : Label) → HasLineOf l ts
        → is_typed l.defined.kind ≡ true
        → (blanks : ℕ) × TypeBegins sheet (width sheet ts) l blanks }
{}
