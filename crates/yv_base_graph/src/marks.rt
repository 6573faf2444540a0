//! Marks on numbered nodes.
ghost use Rattle.std.specs.Prelude.{◌≡◌};
ghost use Rattle.yv_base_graph.specs.Marks.{is_marked};

/// Whether a number has a mark. One past the last has none.
pub fn is_marked(marks: &[bool], number: usize) -> bool
    // True is returned exactly if the mark of this number is set.
    ensures { result ≡ is_marked marks.now number }
{
    marks.get(number).copied().unwrap_or(false)
}
