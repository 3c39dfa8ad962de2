//! What holds of layouts. The function does nothing: its contract is the law.
ghost use Rattle.std.specs.Prelude.{◌≡◌, List, length};
ghost use Rattle.hl_base.specs.declared.set.Line.{Line};
ghost use Rattle.section_layout.specs.Layout.{layout_of};

/// There is a statement for each line, whatever the lines are.
pub fn each_line_has_a_statement()
    ensures { (lines : List Line) → length (layout_of lines).statements ≡ length lines }
{}
