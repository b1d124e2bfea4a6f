//! Shapes beside one another.
ghost use Rattle.std.specs.Prelude.{◌≡◌, Some};
ghost use Rattle.std.specs.Cmp.Lexicographic.{pointwise};
ghost use Rattle.std.specs.List.{list_all};
ghost use Rattle.spec_index.specs.Optimiser.{covers as spec_covers, has_path as spec_has_path, is_alike as spec_is_alike, is_wider as spec_is_wider, same_path as spec_same_path};
ghost use Rattle.index_definition.specs.ShapeView.{shape_view};

use index_definition::Shape;
use raven_value::Path;

fn same_path(path: &Path, other: &Path) -> bool
    ensures { result ≡ spec_same_path path.now other.now }
{
    path.as_slice() == other.as_slice()
}

fn same_paths(paths: &[Path], others: &[Path]) -> bool
    ensures { result ≡ pointwise spec_same_path paths.now others.now }
{
    let mut left = paths;
    let mut right = others;
    while let Some((path, more)) = left.split_first() {
        let Some((other, others)) = right.split_first() else {
            return false;
        };
        if !same_path(path, other) {
            return false;
        }
        left = more;
        right = others;
    }
    right.is_empty()
}

fn has_path(paths: &[Path], path: &Path) -> bool
    ensures { result ≡ spec_has_path paths.now path.now }
{
    paths.iter().any(|own| same_path(path, own))
}

fn has_paths(paths: &[Path], others: &[Path]) -> bool
    ensures { result ≡ list_all (spec_has_path paths.now) others.now }
{
    others.iter().all(|path| has_path(paths, path))
}

/// Whether two shapes have the same collection, and the same groups if they have any.
pub fn is_alike(a: &Shape, b: &Shape) -> bool
    ensures { result ≡ spec_is_alike (shape_view a.now) (shape_view b.now) }
{
    match (&a.groups, &b.groups) {
        (None, None) => a.collection == b.collection,
        (Some(groups), Some(others)) => {
            a.collection == b.collection && same_paths(groups.as_slice(), others.as_slice())
        }
        _ => false,
    }
}

/// Whether an index of the first shape can answer all that one of the second can.
pub fn covers(a: &Shape, b: &Shape) -> bool
    ensures { result ≡ spec_covers (Some (shape_view a.now)) (shape_view b.now) }
{
    is_alike(a, b) && has_paths(a.fields.as_slice(), b.fields.as_slice())
}

/// Whether the first shape covers the second and has more fields.
pub fn is_wider(b: &Shape, a: &Shape) -> bool
    ensures { result ≡ spec_is_wider (Some (shape_view b.now)) (Some (shape_view a.now)) }
{
    covers(b, a) && a.fields.len() < b.fields.len()
}
