//! Laws about the definitions only. These functions do nothing: the contract of each is the law.
ghost use Rattle.std.specs.Prelude.{◌≡◌, ◌≤◌, ◌+◌, ◌-◌, ℕ, List, length};
ghost use Rattle.yv_base_positions.specs.Column.{LineBegins, column, line_at};

/// An offset is found again by its line and its column: it comes so many bytes behind the place
/// where the line begins.
pub fn columns_are_offsets()
    // Wherever the line of an offset begins, the column less one leads from there to the offset.
    ensures offset { (bytes : List ℕ) (offset place : ℕ) → offset ≤ length bytes
        → LineBegins bytes (line_at bytes offset) place
        → offset ≡ place + (column bytes offset - 1) }
    // The line of an offset begins somewhere.
    ensures begins { (bytes : List ℕ) (offset : ℕ) → offset ≤ length bytes
        → (place : ℕ) × LineBegins bytes (line_at bytes offset) place }
    // Offsets of a file that have the same line and the same column are the same.
    ensures same { (bytes : List ℕ) (offset other : ℕ) → offset ≤ length bytes
        → other ≤ length bytes → line_at bytes offset ≡ line_at bytes other
        → column bytes offset ≡ column bytes other → offset ≡ other }
{}
