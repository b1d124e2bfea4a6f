//! The laws of what a door's calls do, each the contract of a function without a body.
ghost use Rattle.std.specs.Prelude.{◌≡◌, ◌≢◌, ℕ, List, [], ◌∷◌, Option, Some};
ghost use Rattle.spec_data.specs.Rows.{Row};
ghost use Rattle.spec_store.specs.Store.{row_at};
ghost use Rattle.spec_server.specs.Sound.{Sound};
ghost use Rattle.raven_laws.specs.Cleaning.{Stands};
ghost use Rattle.raven_ports.specs.States.{KeeperState};
ghost use Rattle.http_session.specs.Sessions.{Finishes, SoFar};
ghost use Rattle.http_session.specs.declared.why.Why.{Why};
ghost use Rattle.http_session.specs.declared.why.Why.TheVariants.{NoMemory as OutOfMemory};
ghost use Rattle.http_desk.specs.Chains.{Given};
ghost use Rattle.spec_desk.specs.Lived.{Follows, Lived};
ghost use Rattle.turn_desk.specs.Seated.{Seated};
ghost use Rattle.serve_ports.specs.Doors.{Doorway};
ghost use Rattle.raven_serve.specs.Chains.{Chain};
ghost use Rattle.raven_serve.specs.Fronts.{AnswersSeated, KeepsSeated};
ghost use Rattle.raven_serve.specs.InOrder.{ServesInOrder};
ghost use Rattle.raven_serve.specs.Receipts.{HasReceipts, Receipts};
ghost use Rattle.raven_serve.specs.Standing.{AllShow};
ghost use Rattle.raven_serve.specs.Completeness.{HasNoFault, IsFinished, IsValid};
ghost use Rattle.raven_serve.specs.Finishing.{EndsSo, IsKeeperOf, Server};
ghost use Rattle.raven_serve.specs.declared.ends.ServeEnd.{ServeEnd};
ghost use Rattle.raven_serve.specs.declared.ends.ServeEnd.TheVariants.{NoThread};

/// Calls that serve a door's connections serve them in their order, and hand them back in this order.
pub fn connections_are_served_in_order()
    ensures { (calls : ℕ) (first last : Seated × List ℕ) (before after : Doorway)
        → Chain AnswersSeated KeepsSeated calls first before last after → ServesInOrder AnswersSeated KeepsSeated first before last after }
{}

/// Calls that begin on a desk which has seen one value lead to one that has seen one value, which follows it: its world is later. So
/// it is also if memory ran out.
pub fn calls_go_on()
    ensures { (calls : ℕ) (first last : Seated × List ℕ) (before after : Doorway) (x : Lived)
        → Chain AnswersSeated KeepsSeated calls first before last after → first.0.pass.seen ≡ x ∷ [] → (y : Lived) × (last.0.pass.seen ≡ y ∷ []) × Follows x y }
{}

/// In a session over a desk of a turn each request that reaches the desk has a true receipt, whose looks follow all that the desk had
/// seen, and the etags that they took are all that were made. So it is at each point of a session, and at its end, unless memory ran
/// out.
pub fn sessions_have_receipts()
    ensures so_far { (first : Seated × List ℕ) (bytes : List ℕ) (count : ℕ) (written : List ℕ) (last : Seated × List ℕ) (rest : List ℕ)
        → SoFar AnswersSeated first bytes count written last rest → HasReceipts first.0 last.0 }
    ensures finished { (first : Seated × List ℕ) (bytes : List ℕ) (held : Option (List ℕ)) (why : Why) (last : Seated × List ℕ) (now : Option (List ℕ))
        → why ≢ OutOfMemory → Finishes AnswersSeated KeepsSeated first bytes held why last now → HasReceipts first.0 last.0 }
{}

/// A row stands in each value that follows, or its id has a newer row there, or the store there was cleaned at least up to the row. So it is in each look of the
/// requests that come after: a client's own write is found, unless a later write or a cleaning took its place. And so it is in what is left of what a server
/// opened, whose rows the keeper that is handed back holds if it reports them.
pub fn writes_stand_unless_cleaned()
    ensures follows { (x y : Lived) (q : List ℕ) (r : Row) → Sound x.world → Follows x y → row_at q x.world.store.rows ≡ Some r → Stands y.world.store q r }
    ensures sessions { (clock : Option ℕ) (x : Lived) (given : List Given) (seen : List Lived) (took : ℕ) (q : List ℕ) (r : Row)
        → Sound x.world → Receipts clock (x ∷ []) given seen took → row_at q x.world.store.rows ≡ Some r → AllShow given q r }
    ensures servers { (x y : Lived) (keeper : KeeperState) (q : List ℕ) (r : Row)
        → Sound x.world → IsKeeperOf x y keeper → row_at q x.world.store.rows ≡ Some r → Stands y.world.store q r }
{}

/// A server whose stored rows open is served until each door is closed, if its keeper does not fail while it opens them, no door and no crew fails, and there is
/// memory. What its keeper does later ends no server.
pub fn servers_come_to_their_end()
    ensures { (s : Server) (end : ServeEnd) (keeper : Option KeeperState) (doors : List Doorway)
        → EndsSo end s keeper doors → IsValid s → HasNoFault end s keeper doors → end ≢ NoThread → IsFinished end }
{}
