//! What a query asks of an index, what is answered to it, and which indexes are retired.

ghost use Rattle.std.specs.Prelude.{◌≡◌, ◌↔◌, ◌<◌, ◌^◌, ℕ, List, Some, true};
ghost use Rattle.spec_data.specs.Data.{Data};
ghost use Rattle.spec_data.specs.Members.{Path};
ghost use Rattle.index_tree.specs.Definitions.{Auto, AutoReduce};
ghost use Rattle.spec_query.specs.Query.{Ask, Query};
ghost use Rattle.spec_index.specs.Optimiser.{Shape, covers, retired};
ghost use Rattle.spec_index.specs.Reduces.{auto_reduce};
ghost use Rattle.spec_index.specs.World.{Slot, World};
ghost use Rattle.spec_server.specs.Requests.{Keeping};
ghost use Rattle.spec_server.specs.Courses.{Machine};
ghost use Rattle.spec_server.specs.Shapes.{shape_asked};
ghost use Rattle.spec_server.specs.Sound.{Has, Sound};
ghost use Rattle.raven_laws.specs.Asked.{AskIsAnswered, AsksShape, Suits, SuitsGroups};
ghost use Rattle.raven_laws.specs.Choices.{Covers, IsOutdone};
ghost use Rattle.raven_laws.specs.Queries.{IsFound, IsRowOfKey};

/// A query on a collection asks for an index of the collection that has the paths of its condition and of its order. If it has groups, it
/// asks for one with these groups, which has all that it sums.
pub fn shapes_are_asked()
    ensures { (collection : List ℕ) (q : Query) → AsksShape collection q (shape_asked collection q) }
{}

/// An index covers a shape exactly if its collection and its groups are those of the shape, and it has all fields of the shape.
pub fn covering_is_exact()
    ensures { (a b : Shape) → (covers (Some a) b ≡ true) ↔ Covers a b }
{}

/// In a sound state with room for less than 2^32 indexes, a query that is refused makes no index. Otherwise it is answered by the index that it
/// names or, if it is on a collection, from the whole collection or by the best index that covers it, and nothing changes. If none covers
/// it, one is made that does, as by an Auto, and the query is answered by that index in the state after, as it would be if it came again; or no
/// more indexes are allowed, or the row of the index is refused, or the keeper failed, and nothing changes.
pub fn queries_are_answered()
    ensures { (M : Machine) (k : Keeping) (now : ℕ) (ask : Ask) → Sound M.world → M.world.setting.max_slots < 2 ^ 32 → AskIsAnswered M k now ask }
{}

/// Of each index that a TIDY retires, another that stays answers all that it answers, has more fields, and is fresh if it is.
pub fn retired_indexes_are_outdone()
    ensures { (W : World) (s : Slot) → Sound W → Has (retired W.slots) s → (t : Slot) × IsOutdone W.store W.slots s t }
{}

/// Of two automatic indexes that suit a query, each finds what the other finds: the same documents or, with groups, rows that show the same.
/// So a query on a collection has the same results, in whatever order, whichever fresh index answers it: one of just the fields that it asks, a
/// wider one, or one that is retired later.
pub fn suitable_indexes_find_alike()
    ensures plain { (W : World) (collection : List ℕ) (ask : Ask) (ps qs : List Path) (d : Data) → Suits collection ask ps → Suits collection ask qs →
        IsFound W (Auto collection ps) ask d ↔ IsFound W (Auto collection qs) ask d }
    ensures grouped { (W : World) (collection : List ℕ) (ask : Ask) (groups ps qs : List Path) (d : Data) →
        SuitsGroups collection ask groups ps → SuitsGroups collection ask groups qs →
        IsRowOfKey W (AutoReduce collection groups ps) (auto_reduce groups ps) ask d ↔ IsRowOfKey W (AutoReduce collection groups qs) (auto_reduce groups qs) ask d }
{}
