//! The laws of steps and of desks.
ghost use Rattle.std.specs.Prelude.{◌≡◌, ◌≤◌, ℕ, Bool, List, Option, Some, false, length};
ghost use Rattle.spec_data.specs.Kept.{KeptRow};
ghost use Rattle.raven_ports.specs.States.{KeeperState};
ghost use Rattle.spec_index.specs.World.{World};
ghost use Rattle.spec_server.specs.Requests.{Do, Keeping, Publish, Request, makes_several};
ghost use Rattle.spec_server.specs.Courses.{Change, Held, Machine, settled, with_world};
ghost use Rattle.spec_server.specs.Workers.{held_by, let_go};
ghost use Rattle.spec_server.specs.Machine.{course_of, step};
ghost use Rattle.spec_server.specs.Replies.{Reply};
ghost use Rattle.spec_server.specs.Sound.{IsHeld, Sound};
ghost use Rattle.spec_server.specs.WellFormed.{IsWellFormed};
ghost use Rattle.spec_desk.specs.Keepers.{Keeps};
ghost use Rattle.spec_desk.specs.Lived.{Follows, Lived, etags, machine_in};
ghost use Rattle.spec_desk.specs.Receipts.{Onward};
ghost use Rattle.spec_desk.specs.Publishing.{publication};
ghost use Rattle.spec_desk.specs.Stepped.{IsMadeInPart, IsStep, MadeInPart, MayMake, Settled, Settles, Stays, reply_after};

/// To follow is an order, and a value that follows has no fewer etags.
pub fn to_follow_is_an_order()
    ensures itself { (x : Lived) → Follows x x }
    ensures steps { (x y z : Lived) → Follows x y → Follows y z → Follows x z }
    ensures etags { (x y : Lived) → Follows x y → etags x ≤ etags y }
{}

/// What a desk has seen goes on, from request to request.
pub fn asking_goes_on()
    ensures { (a b c : List Lived) → Onward a b → Onward b c → Onward a c }
{}

/// The changes of a well-formed request may be made, if the keeper holds the rows of the world.
pub fn courses_may_be_made()
    ensures { (now : ℕ) (q : Request) (x : Lived) → Keeps x.keeper.held (machine_in x) → IsWellFormed (Do q) → MayMake x (course_of x.world now q).changes }
{}

/// What settles the course of a request is the step of the request, with the reply of the course, or the one for a failed keeper.
pub fn settled_courses_are_steps()
    ensures { (now : ℕ) (q : Request) (x : Lived) (s : Settled) (y : Lived) → Settles (course_of x.world now q).changes x s y → IsStep now q x (reply_after s (course_of x.world now q).reply) y }
{}

/// Of a course of one change at most that was made in part, nothing was made: the world is as it was, and the keeper holds what it held.
pub fn one_change_is_made_or_not()
    ensures { (changes : List Change) (x y : Lived) → length changes ≤ 1 → IsMadeInPart changes x y → Stays x y }
{}

/// Each request makes one change at most, but those that make several.
pub fn only_some_requests_make_several_changes()
    ensures { (W : World) (now : ℕ) (q : Request) → makes_several q ≡ false → length (course_of W now q).changes ≤ 1 }
{}

/// If a course was made in part, the world is the one that the step of the request leaves if the keeper does not take the rows of the next change.
pub fn parts_are_left_by_steps()
    ensures { (M : Machine) (now before after : ℕ) (q : Request) (keeper : KeeperState) (V : World) (held : Option (List KeptRow)) →
        MadeInPart (course_of M.world now q).changes M.world keeper V held →
        (takes : List Bool) × ((step M (record { takes = takes; before = before; after = after }) now (Do q)).machine ≡ with_world M V) }
{}

/// A PUBLISH of a worker that holds a batch lets the batch go and settles its publication.
pub fn settled_publications_are_steps()
    ensures { (M : Machine) (k : Keeping) (now worker : ℕ) (h : Held) → held_by M.held worker ≡ Some h →
        step M k now (Publish worker) ≡ settled (let_go M worker) k (publication M.world h.number h.version) }
{}

/// The change of a publication may be made, if the batch may be published.
pub fn publications_may_be_made()
    ensures { (x : Lived) (h : Held) → Sound x.world → IsHeld x.world h → MayMake x (publication x.world h.number h.version).changes }
{}
