//! When two definitions say the same, and what defining an index, removing one, and a batch for one do.

ghost use Rattle.std.specs.Prelude.{◌≡◌, ◌↔◌, ◌<◌, ◌^◌, ℕ, List, Some, true};
ghost use Rattle.index_tree.specs.Definitions.{same_definition, Definition};
ghost use Rattle.spec_server.specs.Requests.{Do, Keeping, Pump};
ghost use Rattle.spec_server.specs.Courses.{Machine};
ghost use Rattle.spec_server.specs.Machine.{step};
ghost use Rattle.spec_server.specs.Sound.{Sound};
ghost use Rattle.raven_laws.specs.Choices.{AutoIsAnswered};
ghost use Rattle.raven_laws.specs.Definitions.{BatchIsAnswered, DefineIsAnswered, OtherSlotsStay, RemoveIsAnswered, SaysTheSame, SwitchIsAnswered};
ghost use Rattle.raven_laws.specs.Served.{TidyIsAnswered};

/// Two definitions are found to be the same exactly if their maps and reduces are equal, or their collections and fields are, or with groups
/// their collections, groups and sums. Their texts do not matter.
pub fn same_definition_is_exact()
    ensures { (d e : Definition) → (same_definition d e ≡ true) ↔ SaysTheSame d e }
{}

/// In a sound state a Define is refused and changes nothing: for its name, for one index too many, or for its row. Or the keeper failed and
/// nothing changes; or the name serves that definition already, or a replacement of that definition is being built, and nothing changes. Or
/// there is a new index of that definition after the others; or a replacement of that definition is built beside the index that serves the
/// name, in place of an earlier one; or the name serves that definition and the replacement that was being built goes. All other slots and
/// rows stay as they were.
pub fn definitions_are_answered()
    ensures { (M : Machine) (k : Keeping) (now : ℕ) (name : List ℕ) (d : Definition) → Sound M.world → DefineIsAnswered M k now name d }
{}

/// A Remove is refused and changes nothing, if no index serves the name, or for its rows. Or the keeper failed and nothing changes; or the
/// index is gone, and with it the replacement that was being built for it, the rows of their definitions are deleted, and all other slots and
/// rows stay as they were.
pub fn removals_are_answered()
    ensures { (M : Machine) (k : Keeping) (now : ℕ) (name : List ℕ) → Sound M.world → RemoveIsAnswered M k now name }
{}

/// In a sound state a Switch is refused and changes nothing: no index serves the name, no replacement is being built, there are as many notes
/// as there may be, the replacement is stale on this very store, or its rows are refused. Or the keeper failed and nothing changes; or the
/// replacement serves the name with its number and all that it has recorded, the note of that is the last, and all other slots and rows stay
/// as they were.
pub fn switches_are_answered()
    ensures { (M : Machine) (k : Keeping) (now : ℕ) (name : List ℕ) → Sound M.world → SwitchIsAnswered M k now name }
{}

/// In a sound state the reply to a TIDY, if the keeper and the store take its rows, tells what was done. It names all that was switched and
/// nothing else, in the order of the notes of the switches, which is that of the folded names. Each replacement was not stale on the very
/// store at which it took the name. It names as retired exactly the indexes that others outdo once the switches are made, and all others are
/// left. None of those that it names is served any more.
pub fn tidies_are_answered()
    ensures { (M : Machine) (k : Keeping) (now : ℕ) → Sound M.world → TidyIsAnswered M k now }
{}

/// In a sound state with room for less than 2^32 indexes, an Auto uses the best index, and changes nothing. Or it makes a new one: that is
/// refused for one index too many or for its row, and changes nothing; or the keeper failed and nothing changes; or the new index follows the
/// others, and all other slots and rows stay as they were.
pub fn autos_are_answered()
    ensures { (M : Machine) (k : Keeping) (now : ℕ) (collection field : List ℕ) → Sound M.world → M.world.setting.max_slots < 2 ^ 32 →
        AutoIsAnswered M k now collection field }
{}

/// A batch for one name advances the index that serves it, and leaves every index of another name as it was.
pub fn batches_for_one_leave_the_others()
    ensures answered { (M : Machine) (k : Keeping) (now max : ℕ) (name : List ℕ) → BatchIsAnswered M k now max name }
    ensures others { (M : Machine) (k : Keeping) (now max : ℕ) (name : List ℕ) → OtherSlotsStay M name (step M k now (Do (Pump max (Some name)))).machine }
{}
