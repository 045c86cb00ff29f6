ghost use Rattle.std.specs.Prelude.{◌≡◌, ◌++◌, ◌∷◌, ◌↔◌, [], IfOk, IsTrue};
ghost use Rattle.c_core.specs.Functions as spec;
ghost use Rattle.c_text.specs.Labels.{labels_behind};

use c_core::Line;
use std::alloc::Global;
use std::marker::Model;
use value_core::{Many, Memory};

/// The lines of a function that were read so far, and how many labels are among them. Contracts see them as a list.
#[derive(Drop)]
pub(crate) struct Lines {
    lines: Many<Line>,
    labels: usize,
}

impl Model for Lines {
    ghost use Rattle.std.specs.Prelude.{◌≡◌, List};
    ghost use Rattle.c_core.specs.declared.code.Line.{Line};
    ghost use Rattle.c_text.specs.Labels.{labels_behind};

    ghost Value = { List Line };

    ghost view = { λ lines. lines.lines };

    ghost invariant = { λ lines. lines.labels ≡ labels_behind 0 lines.lines };
}

/// Whether a line is a label.
pub(crate) fn is_label(line: &Line) -> bool
    ensures { result ≡ spec.is_label line.now }
{
    matches!(line, Line::Label)
}

impl Lines {
    pub(crate) fn new(alloc: Global) -> Lines
        ensures { result ≡ [] }
    {
        Lines {
            lines: Many::new(alloc),
            labels: 0,
        }
    }

    /// Whether there is no line.
    pub(crate) fn is_empty(&self) -> bool
        ensures { IsTrue result ↔ (self.now ≡ []) }
    {
        self.lines.is_empty()
    }

    /// How many labels are among the lines.
    pub(crate) fn labels(&self) -> usize
        ensures { result ≡ labels_behind 0 self.now }
    {
        self.labels
    }

    /// The lines with one more.
    pub(crate) fn and(self, line: Line) -> Result<Lines, Memory>
        ensures { IfOk result (λ lines. lines ≡ self ++ line ∷ []) }
    {
        let Lines {
            mut lines,
            mut labels,
        } = self;
        let is_label = is_label(&line);
        lines.push(line)?;
        prove!(labels < lines.len());
        if is_label {
            labels += 1;
        }
        Ok(Lines { lines, labels })
    }

    pub(crate) fn into_list(self) -> Many<Line>
        ensures { result ≡ self }
    {
        let Lines { lines, .. } = self;
        lines
    }
}
