//! The order of the paths of an automatic index.
ghost use Rattle.std.specs.Prelude.{◌≡◌, [], IfOk, MatchOption, OnOk, OnErr, length, map, nat_lt, sum_by};
ghost use Rattle.std.specs.Ordering.{ordering_then};
ghost use Rattle.std.specs.Cmp.Lexicographic.{slice_cmp};
ghost use Rattle.spec_data.specs.Folding.{key_cmp};
ghost use Rattle.spec_index.specs.Optimiser.{in_order as spec_in_order, is_too_wide as spec_is_too_wide, with_path};
ghost use Rattle.index_definition.specs.Order.{AreNamed, IsPlace, IsThere, paths_of, with_paths};
ghost use Rattle.index_tree.specs.Mapper.{joined};

use crate::paths::joined_name;
use raven_base::NoMemory;
use raven_value::{Path, Paths, Text};
use std::alloc::Global;
use std::cmp::Ordering;
use std::marker::Model;

/// An index has at most so many fields.
pub const MAX_FIELDS: usize = 64;

/// The names of its fields have at most so many bytes together.
pub const MAX_FIELD_BYTES: usize = 65_536;

/// Paths, each once, in the order of the bytes of their joined forms, and of their parts if those are the same.
pub struct OrderedPaths {
    /// Each behind its joined form.
    items: Vec<(Text, Path)>,
}

// Opaque drop: see raven_base.
impl Drop for OrderedPaths {
    fn drop(self) {
        let OrderedPaths { items: _items } = self;
    }
}

impl Model for OrderedPaths {
    ghost use Rattle.std.specs.Prelude.{List, map};
    ghost use Rattle.std.specs.Coded.{coded_list};
    ghost use Rattle.spec_data.specs.Members.{Path as is_path};
    ghost use Rattle.index_tree.specs.Definitions.{path_code};
    ghost use Rattle.index_definition.specs.Order.{AreNamed};

    ghost Value = { List is_path };

    ghost coded = { coded_list path_code };

    ghost view = { λ a. map (λ p. p.1) a.items.items };

    ghost invariant = { λ a. AreNamed a.items.items };
}

fn order_of(name: &Text, path: &Path, other: &(Text, Path)) -> Ordering
    ensures { result ≡ ordering_then (key_cmp name.now other.now.0) (slice_cmp key_cmp path.now other.now.1) }
{
    match name.cmp(&other.0) {
        Ordering::Equal => path.as_slice().cmp(other.1.as_slice()),
        order => order,
    }
}

// The place where a path belongs, unless it is there. The search begins at the first path.
fn place_of(items: &[(Text, Path)], name: &Text, path: &Path) -> Option<usize>
    requires name { name.now ≡ joined path.now }
    requires named { AreNamed items.now }
    ensures { MatchOption result (IsThere path.now items.now) (IsPlace name.now path.now items.now) }
{
    let mut i = 0;
    while i < items.len() {
        match order_of(name, path, &items[i]) {
            Ordering::Less => return Some(i),
            Ordering::Equal => return None,
            Ordering::Greater => i += 1,
        }
    }
    Some(i)
}

// Whether the joined forms have too many bytes together.
fn are_too_long(items: &[(Text, Path)]) -> bool
    requires { AreNamed items.now }
    ensures { result ≡ nat_lt 65536 (sum_by (λ p. length (joined p)) (paths_of items.now)) }
{
    let mut bytes = 0;
    for pair in items {
        let more = pair.0.as_str().len();
        if more > MAX_FIELD_BYTES - bytes {
            return true;
        }
        bytes += more;
    }
    false
}

impl OrderedPaths {
    /// No paths.
    pub fn new(alloc: Global) -> OrderedPaths
        ensures { result ≡ [] }
    {
        OrderedPaths {
            items: Vec::new(alloc),
        }
    }

    /// Puts a path in its place, unless it is there.
    pub fn put(&mut self, alloc: Global, path: &Path) -> Result<(), NoMemory>
        ensures ok { OnOk result (self.new ≡ with_path path.now self.old) }
        ensures err { OnErr result (self.new ≡ self.old) }
    {
        let name = joined_name(alloc, path)?;
        if let Some(i) = place_of(&self.items, &name, path) {
            self.items.insert(i, (name, path.clone()?))?;
        }
        Ok(())
    }

    /// Puts in each of these, the last one first.
    pub fn put_all(&mut self, alloc: Global, paths: &[Path]) -> Result<(), NoMemory>
        ensures { OnOk result (self.new ≡ with_paths paths.now self.old) }
    {
        let mut i = paths.len();
        while i > 0 {
            i -= 1;
            self.put(alloc, &paths[i])?;
        }
        Ok(())
    }

    /// How many there are.
    pub fn len(&self) -> usize
        ensures { result ≡ length self.now }
    {
        self.items.len()
    }

    /// Whether an index cannot have all of them: they are more than 64, or their joined forms have more than 65,536 bytes together.
    pub fn are_too_wide(&self) -> bool
        ensures { result ≡ spec_is_too_wide self.now }
    {
        self.items.len() > MAX_FIELDS || are_too_long(&self.items)
    }

    /// The paths alone.
    pub fn into_paths(self, alloc: Global) -> Result<Paths, NoMemory>
        ensures { IfOk result (λ paths. paths ≡ self) }
    {
        let OrderedPaths { items } = self;
        let mut paths = Paths::new(alloc);
        for pair in items {
            paths.push(pair.1)?;
        }
        Ok(paths)
    }
}

/// These paths in order, each once.
pub fn in_order(alloc: Global, paths: &[&Path]) -> Result<Paths, NoMemory>
    ensures { IfOk result (λ all. all ≡ spec_in_order (map (λ p. p.now) paths.now)) }
{
    let mut found = OrderedPaths::new(alloc);
    let mut i = paths.len();
    while i > 0 {
        i -= 1;
        found.put(alloc, paths[i])?;
    }
    found.into_paths(alloc)
}
