//! Whether a test of the pending exception is missing.
ghost use Rattle.std.specs.Prelude.{◌≡◌};
ghost use Rattle.std.specs.List.{list_any};
ghost use Rattle.error_edges.specs.Layout.{is_second_test};

use ir_core::Edge;

/// Whether a test of the pending exception is missing.
pub(crate) fn any_second_test(edges: &[Edge]) -> bool
    ensures { result ≡ list_any is_second_test edges.now }
{
    edges.iter().any(|edge| is_twice(*edge))
}

fn is_twice(edge: Edge) -> bool
    ensures { result ≡ is_second_test edge }
{
    match edge {
        Edge::TestsTwice(_) => true,
        _ => false,
    }
}
