//! A node's line.
ghost use Rattle.std.specs.Prelude.{◌≡◌, ◌≤◌, ◌+◌, ◌-◌, ◌^◌, ◌++◌, [], ◌∷◌, Some, codes, false, length, map, replicate, if◌then◌else◌};
ghost use Rattle.yv_node_content.specs.Steps.{is_module_file};
ghost use Rattle.yv_base_streams.specs.Pages.{Adds};
ghost use Rattle.yv_tree.specs.{Columns.{blanks_before, case_line, column_front, column_line, column_options, column_type, counts, indented_text, is_empty, label_width, sheet_line, shown_label}, InnerDraw.{is_list, sheet_with}, Lines.{status_mark, access, flags, line_start, lead, full_name, shown_name, options, optional, list_options, key_name, between, behind, behind_each, written_prefix, shown_piece, shown_type, if_features, line}};

use crate::draw::Subject;
use crate::paper::Paper;
use yv_node_content::{NodeKind, NodeStatus, PathPiece, PathStep};
use yv_nodes::Node;

/// Puts the line of a node in a group of this width, without its margin and its line feed.
pub(crate) fn put_sheet_line<P: Paper>(
    drawing: &Subject<'_>,
    width: u128,
    node: &Node,
    paper: &mut P,
    page: &mut P::Page,
)
    ensures { Adds
        (sheet_line (sheet_with drawing.now.modules.now drawing.now.own drawing.now.columns) width
        node.now.label)
        (P.output page.old paper.old) (P.output page.new paper.new) }
{
    if drawing.columns {
        put_column_line(drawing, width, node, paper, page);
    } else {
        put_line(drawing, node, paper, page);
    }
}

/// Puts the line of the case that a choice leaves out, with what it holds, without its margin and
/// its line feed.
pub(crate) fn put_case_line<P: Paper>(
    drawing: &Subject<'_>,
    node: &Node,
    paper: &mut P,
    page: &mut P::Page,
)
    ensures { Adds
        (case_line (sheet_with drawing.now.modules.now drawing.now.own drawing.now.columns)
        node.now.label)
        (P.output page.old paper.old) (P.output page.new paper.new) }
{
    let mark = mark_of(node.status());
    paper.put(page, mark);
    paper.put(page, "--:(");
    put_full_name(drawing, node, paper, page);
    paper.put(page, ")");
}

// The line of a node whose type begins in a column.
fn put_column_line<P: Paper>(
    drawing: &Subject<'_>,
    width: u128,
    node: &Node,
    paper: &mut P,
    page: &mut P::Page,
)
    ensures { Adds
        (column_line (sheet_with drawing.now.modules.now drawing.now.own drawing.now.columns) width
        node.now.label)
        (P.output page.old paper.old) (P.output page.new paper.new) }
{
    put_front(drawing, node, paper, page);
    put_column_options(node, paper, page);
    put_column_type(drawing, width, node, paper, page);
    put_if_features(node.features(), paper, page);
}

// The marks after the name: a list without keys has no brackets.
fn put_column_options<P: Paper>(node: &Node, paper: &mut P, page: &mut P::Page)
    ensures { Adds (column_options node.now.label.defined.kind node.now.label)
        (P.output page.old paper.old) (P.output page.new paper.new) }
{
    match node.kind() {
        NodeKind::List => put_keys_if_any(node.keys(), paper, page),
        _ => put_options(node, paper, page),
    }
}

fn put_keys_if_any<P: Paper>(keys: &[Option<PathStep>], paper: &mut P, page: &mut P::Page)
    ensures { Adds (if is_empty keys.now then codes "*" else list_options keys.now)
        (P.output page.old paper.old) (P.output page.new paper.new) }
{
    if keys.is_empty() {
        paper.put(page, "*");
    } else {
        put_list_options(keys, paper, page);
    }
}

// The type behind its blanks, where there is one.
fn put_column_type<P: Paper>(
    drawing: &Subject<'_>,
    width: u128,
    node: &Node,
    paper: &mut P,
    page: &mut P::Page,
)
    ensures { Adds
        (indented_text
        (blanks_before width
        (sheet_with drawing.now.modules.now drawing.now.own drawing.now.columns) node.now.label)
        (column_type node.now.label.defined.kind node.now.label))
        (P.output page.old paper.old) (P.output page.new paper.new) }
{
    match node.kind() {
        NodeKind::List => {}
        NodeKind::Anydata => put_type_text(drawing, width, node, "anydata", paper, page),
        NodeKind::Anyxml => put_type_text(drawing, width, node, "anyxml", paper, page),
        _ => put_shown_type(drawing, width, node, paper, page),
    }
}

// The type of a node that isn't a list behind its blanks: of a leafref an arrow and its path.
fn put_shown_type<P: Paper>(
    drawing: &Subject<'_>,
    width: u128,
    node: &Node,
    paper: &mut P,
    page: &mut P::Page,
)
    requires { is_list node.now.label.defined.kind ≡ false }
    ensures { Adds
        (indented_text
        (blanks_before width
        (sheet_with drawing.now.modules.now drawing.now.own drawing.now.columns) node.now.label)
        (shown_type node.now.label.defined.path node.now.label))
        (P.output page.old paper.old) (P.output page.new paper.new) }
{
    match node.path().split_first() {
        Some((first, others)) => {
            put_gap(width, shown_length(drawing, node), paper, page);
            paper.put(page, "-> ");
            put_path(node.module_file(), first, others, paper, page);
        }
        None => put_type_text(drawing, width, node, node.type_text(), paper, page),
    }
}

// The text of a type of a node that isn't a list behind its blanks, or nothing where it is empty.
fn put_type_text<P: Paper>(
    drawing: &Subject<'_>,
    width: u128,
    node: &Node,
    text: &str,
    paper: &mut P,
    page: &mut P::Page,
)
    requires { is_list node.now.label.defined.kind ≡ false }
    ensures { Adds
        (indented_text
        (blanks_before width
        (sheet_with drawing.now.modules.now drawing.now.own drawing.now.columns) node.now.label)
        text.now)
        (P.output page.old paper.old) (P.output page.new paper.new) }
{
    if !text.is_empty() {
        put_gap(width, shown_length(drawing, node), paper, page);
        paper.put(page, text);
    }
}

// The blanks before a type in a group of this width, behind a name and marks of this length.
fn put_gap<P: Paper>(width: u128, taken: u128, paper: &mut P, page: &mut P::Page)
    ensures { Adds (replicate (4 + width - taken) 32)
        (P.output page.old paper.old) (P.output page.new paper.new) }
{
    if taken <= width {
        paper.put(page, "    ");
        put_blanks(width - taken, paper, page);
    } else {
        put_blanks(less(4, taken - width), paper, page);
    }
}

// So many blanks. A name may be very long, so they are put in pieces.
fn put_blanks<P: Paper>(blanks: u128, paper: &mut P, page: &mut P::Page)
    ensures { Adds (replicate blanks 32)
        (P.output page.old paper.old) (P.output page.new paper.new) }
{
    let mut left = blanks;
    while left > 0 {
        let piece = blanks_within(left);
        paper.put(page, piece);
        left -= piece.len() as u128;
    }
}

// Some of so many blanks.
fn blanks_within(left: u128) -> &'static str
    requires { 1 ≤ left }
    ensures within { length result.now ≤ left }
    ensures some { 1 ≤ length result.now }
    ensures blanks { result.now ≡ replicate (length result.now) 32 }
{
    if left < 4 {
        " "
    } else if left < 16 {
        "    "
    } else if left < 64 {
        "                "
    } else {
        "                                                                "
    }
}

// The difference, or 0 where there is none.
fn less(from: u128, amount: u128) -> u128
    ensures { result ≡ from - amount }
{
    if amount < from { from - amount } else { 0 }
}

/// What a node with a line adds to the width of its group: the length of its name as it is shown,
/// but nothing at a case, and at a list that has keys.
pub(crate) fn label_width(drawing: &Subject<'_>, node: &Node) -> u128
    ensures { result
        ≡ label_width (sheet_with drawing.now.modules.now drawing.now.own drawing.now.columns)
        node.now.label }
{
    if counts(node) {
        name_length(drawing, node)
    } else {
        0
    }
}

// Whether the name of a node counts in the width of its group.
fn counts(node: &Node) -> bool
    ensures { result ≡ counts node.now.label.defined.kind node.now.label }
{
    match node.kind() {
        NodeKind::Case => false,
        NodeKind::List => node.keys().is_empty(),
        _ => true,
    }
}

// The length of the name and the marks of a node that isn't a list.
fn shown_length(drawing: &Subject<'_>, node: &Node) -> u128
    requires { is_list node.now.label.defined.kind ≡ false }
    ensures { result
        ≡ length (shown_label
        (sheet_with drawing.now.modules.now drawing.now.own drawing.now.columns) node.now.label
        ++ column_options node.now.label.defined.kind node.now.label) }
{
    name_length(drawing, node) + options_of(node).len() as u128
}

// The length of the name of a node as a line shows it.
fn name_length(drawing: &Subject<'_>, node: &Node) -> u128
    ensures value { result
        ≡ length (shown_label
        (sheet_with drawing.now.modules.now drawing.now.own drawing.now.columns) node.now.label) }
    ensures fits { result ≤ 2 ^ 66 }
{
    let full = full_length(drawing, node);
    match node.kind() {
        NodeKind::Choice | NodeKind::Case => full + 2,
        _ => full,
    }
}

// The length of the name of a node with its module.
fn full_length(drawing: &Subject<'_>, node: &Node) -> u128
    ensures value { result
        ≡ length (full_name drawing.now.modules.now drawing.now.own node.now.label) }
    ensures fits { result ≤ 2 ^ 65 + 1 }
{
    lead_length(drawing, node.module_file()) + node.name().len() as u128
}

// The length of the prefix of a node's module and a colon, where that isn't the module of the
// diagram.
fn lead_length(drawing: &Subject<'_>, module_file: u32) -> u128
    ensures value { result ≡ length (lead drawing.now.modules.now drawing.now.own module_file) }
    ensures fits { result ≤ 2 ^ 64 }
{
    if module_file == drawing.own {
        0
    } else {
        drawing.modules.prefix(module_file).len() as u128 + 1
    }
}

// The line of a node whose type stands one blank behind its name.
fn put_line<P: Paper>(drawing: &Subject<'_>, node: &Node, paper: &mut P, page: &mut P::Page)
    ensures { Adds (line drawing.now.modules.now drawing.now.own node.now.label)
        (P.output page.old paper.old) (P.output page.new paper.new) }
{
    put_front(drawing, node, paper, page);
    put_fields(node, paper, page);
}

// The first fields: status, flags and name.
fn put_front<P: Paper>(drawing: &Subject<'_>, node: &Node, paper: &mut P, page: &mut P::Page)
    ensures { Adds (status_mark node.now.label.defined.status ++ codes "--"
        ++ line_start node.now.label.defined.kind node.now.label
        ++ shown_name node.now.label.defined.kind drawing.now.modules.now drawing.now.own
        node.now.label)
        (P.output page.old paper.old) (P.output page.new paper.new) }
{
    paper.put(page, mark_of(node.status()));
    paper.put(page, "--");
    put_opening(node, paper, page);
    put_name(drawing, node, paper, page);
}

// The other fields: options, type and conditions.
fn put_fields<P: Paper>(node: &Node, paper: &mut P, page: &mut P::Page)
    ensures { Adds (options node.now.label.defined.kind node.now.label
        ++ behind (shown_type node.now.label.defined.path node.now.label)
        ++ if_features node.now.label.defined.features)
        (P.output page.old paper.old) (P.output page.new paper.new) }
{
    put_options(node, paper, page);
    put_type(node, paper, page);
    put_if_features(node.features(), paper, page);
}

fn mark_of(status: NodeStatus) -> &'static str
    ensures { result.now ≡ status_mark status }
{
    match status {
        NodeStatus::Current => "+",
        NodeStatus::Deprecated => "x",
        NodeStatus::Obsolete => "o",
    }
}

fn flags_of(node: &Node) -> &'static str
    ensures { result.now ≡ flags node.now.label.defined.kind node.now.label }
{
    match node.kind() {
        NodeKind::Rpc | NodeKind::Action => "-x",
        NodeKind::Notification => "-n",
        _ => access_of(node),
    }
}

fn access_of(node: &Node) -> &'static str
    ensures { result.now ≡ access node.now.label }
{
    if node.is_input() {
        "-w"
    } else if node.config() {
        "rw"
    } else {
        "ro"
    }
}

fn put_opening<P: Paper>(node: &Node, paper: &mut P, page: &mut P::Page)
    ensures { Adds (line_start node.now.label.defined.kind node.now.label)
        (P.output page.old paper.old) (P.output page.new paper.new) }
{
    match node.kind() {
        NodeKind::Case => paper.put(page, ":"),
        _ => put_flags(node, paper, page),
    }
}

fn put_flags<P: Paper>(node: &Node, paper: &mut P, page: &mut P::Page)
    ensures { Adds (flags node.now.label.defined.kind node.now.label ++ codes " ")
        (P.output page.old paper.old) (P.output page.new paper.new) }
{
    paper.put(page, flags_of(node));
    paper.put(page, " ");
}

fn put_name<P: Paper>(drawing: &Subject<'_>, node: &Node, paper: &mut P, page: &mut P::Page)
    ensures { Adds
        (shown_name node.now.label.defined.kind drawing.now.modules.now drawing.now.own
        node.now.label)
        (P.output page.old paper.old) (P.output page.new paper.new) }
{
    match node.kind() {
        NodeKind::Choice | NodeKind::Case => {
            paper.put(page, "(");
            put_full_name(drawing, node, paper, page);
            paper.put(page, ")");
        }
        _ => put_full_name(drawing, node, paper, page),
    }
}

fn put_full_name<P: Paper>(drawing: &Subject<'_>, node: &Node, paper: &mut P, page: &mut P::Page)
    ensures { Adds (full_name drawing.now.modules.now drawing.now.own node.now.label)
        (P.output page.old paper.old) (P.output page.new paper.new) }
{
    put_lead(drawing, node.module_file(), paper, page);
    paper.put(page, node.name());
}

// The prefix of a node's module and a colon, where that isn't the module of the diagram.
fn put_lead<P: Paper>(drawing: &Subject<'_>, module_file: u32, paper: &mut P, page: &mut P::Page)
    ensures { Adds (lead drawing.now.modules.now drawing.now.own module_file)
        (P.output page.old paper.old) (P.output page.new paper.new) }
{
    if module_file != drawing.own {
        paper.put(page, drawing.modules.prefix(module_file));
        paper.put(page, ":");
    }
}

fn put_options<P: Paper>(node: &Node, paper: &mut P, page: &mut P::Page)
    ensures { Adds (options node.now.label.defined.kind node.now.label)
        (P.output page.old paper.old) (P.output page.new paper.new) }
{
    match node.kind() {
        NodeKind::List => put_list_options(node.keys(), paper, page),
        _ => paper.put(page, options_of(node)),
    }
}

// The marks after the name of a node that isn't a list.
fn options_of(node: &Node) -> &'static str
    requires { is_list node.now.label.defined.kind ≡ false }
    ensures value { result.now ≡ options node.now.label.defined.kind node.now.label }
    ensures short { length result.now ≤ 1 }
{
    match node.kind() {
        NodeKind::Container => presence_of(node),
        NodeKind::Leaf | NodeKind::Choice | NodeKind::Anydata | NodeKind::Anyxml => {
            optional_of(node)
        }
        NodeKind::LeafList => "*",
        _ => "",
    }
}

fn presence_of(node: &Node) -> &'static str
    ensures { result.now ≡ (if node.now.label.defined.has_presence then codes "!" else []) }
{
    if node.presence() { "!" } else { "" }
}

fn optional_of(node: &Node) -> &'static str
    ensures { result.now ≡ optional node.now.label }
{
    if node.mandatory() || node.is_key() {
        ""
    } else {
        "?"
    }
}

fn put_list_options<P: Paper>(keys: &[Option<PathStep>], paper: &mut P, page: &mut P::Page)
    ensures { Adds (list_options keys.now)
        (P.output page.old paper.old) (P.output page.new paper.new) }
{
    paper.put(page, "* [");
    put_keys(keys, paper, page);
    paper.put(page, "]");
}

fn put_keys<P: Paper>(keys: &[Option<PathStep>], paper: &mut P, page: &mut P::Page)
    ensures { Adds (between (codes " ") (map key_name keys.now))
        (P.output page.old paper.old) (P.output page.new paper.new) }
{
    if let Some((first, others)) = keys.split_first() {
        paper.put(page, name_of(first));
        put_others(others, paper, page);
    }
}

fn put_others<P: Paper>(keys: &[Option<PathStep>], paper: &mut P, page: &mut P::Page)
    ensures { Adds (behind_each (codes " ") (map key_name keys.now))
        (P.output page.old paper.old) (P.output page.new paper.new) }
{
    for key in keys {
        put_other(key, paper, page);
    }
}

// A further key after its blank.
fn put_other<P: Paper>(key: &Option<PathStep>, paper: &mut P, page: &mut P::Page)
    ensures { Adds (codes " " ++ key_name key.now)
        (P.output page.old paper.old) (P.output page.new paper.new) }
{
    paper.put(page, " ");
    paper.put(page, name_of(key));
}

fn name_of(key: &Option<PathStep>) -> &str
    ensures { result.now ≡ key_name key.now }
{
    match key {
        Some(step) => step.name(),
        None => "",
    }
}

// A further field: a blank and the field, or nothing where it is empty.
fn put_field<P: Paper>(field: &str, paper: &mut P, page: &mut P::Page)
    ensures { Adds (behind field.now) (P.output page.old paper.old) (P.output page.new paper.new) }
{
    if !field.is_empty() {
        paper.put(page, " ");
        paper.put(page, field);
    }
}

// The field of the type: of a leafref an arrow and its path.
fn put_type<P: Paper>(node: &Node, paper: &mut P, page: &mut P::Page)
    ensures { Adds (behind (shown_type node.now.label.defined.path node.now.label))
        (P.output page.old paper.old) (P.output page.new paper.new) }
{
    match node.path().split_first() {
        Some((first, others)) => {
            paper.put(page, " -> ");
            put_path(node.module_file(), first, others, paper, page);
        }
        None => put_field(node.type_text(), paper, page),
    }
}

// The path of a leafref of the module of this number: its first piece, and the others.
fn put_path<P: Paper>(
    module_file: u32,
    first: &PathPiece,
    others: &[PathPiece],
    paper: &mut P,
    page: &mut P::Page,
)
    ensures { Adds (between (codes "/") (map (shown_piece module_file) (first.now ∷ others.now)))
        (P.output page.old paper.old) (P.output page.new paper.new) }
{
    put_piece(module_file, first, paper, page);
    put_pieces(module_file, others, paper, page);
}

// Pieces of the path of a leafref of the module of this number, each after a slash.
fn put_pieces<P: Paper>(module_file: u32, pieces: &[PathPiece], paper: &mut P, page: &mut P::Page)
    ensures { Adds (behind_each (codes "/") (map (shown_piece module_file) pieces.now))
        (P.output page.old paper.old) (P.output page.new paper.new) }
{
    for piece in pieces {
        put_other_piece(module_file, piece, paper, page);
    }
}

// A further piece after its slash.
fn put_other_piece<P: Paper>(module_file: u32, piece: &PathPiece, paper: &mut P, page: &mut P::Page)
    ensures { Adds (codes "/" ++ shown_piece module_file piece.now)
        (P.output page.old paper.old) (P.output page.new paper.new) }
{
    paper.put(page, "/");
    put_piece(module_file, piece, paper, page);
}

fn put_piece<P: Paper>(module_file: u32, piece: &PathPiece, paper: &mut P, page: &mut P::Page)
    ensures { Adds (shown_piece module_file piece.now)
        (P.output page.old paper.old) (P.output page.new paper.new) }
{
    if !is_of(piece, module_file) {
        put_prefix(piece, paper, page);
    }
    paper.put(page, piece.name());
}

// Whether a piece has a prefix of the module of this number.
fn is_of(piece: &PathPiece, module_file: u32) -> bool
    ensures { result ≡ is_module_file (Some module_file) piece.now.module_file }
{
    match piece.module_file() {
        Some(of) => module_file == of,
        None => false,
    }
}

fn put_prefix<P: Paper>(piece: &PathPiece, paper: &mut P, page: &mut P::Page)
    ensures { Adds (written_prefix piece.now.prefix)
        (P.output page.old paper.old) (P.output page.new paper.new) }
{
    if let Some(prefix) = piece.prefix() {
        paper.put(page, prefix);
        paper.put(page, ":");
    }
}

fn put_if_features<P: Paper>(features: &str, paper: &mut P, page: &mut P::Page)
    ensures { Adds (if_features features.now)
        (P.output page.old paper.old) (P.output page.new paper.new) }
{
    if !features.is_empty() {
        paper.put(page, " {");
        paper.put(page, features);
        paper.put(page, "}?");
    }
}
