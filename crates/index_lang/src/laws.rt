//! The laws of definitions, each the contract of a function without a body.
ghost use Rattle.std.specs.Prelude.{◌≡◌, ℕ, List, Ok, Option, Result, true};
ghost use Rattle.index_tree.specs.Definitions.{Definition as MeantDefinition, Texts};
ghost use Rattle.index_definition.specs.declared.definition.Definition.{Definition};
ghost use Rattle.index_definition.specs.declared.refusal.LangRefusal.{LangRefusal};
ghost use Rattle.index_lang.specs.Parse.{IsParsed};
ghost use Rattle.index_lang.specs.Reducing.{reduces_if};
ghost use Rattle.index_lang.specs.Says.{Says};

/// The texts of a definition have no more than one answer. So what `parse` answers is the only thing that can be answered of them.
pub fn texts_have_one_answer()
    ensures { (name text : List ℕ) (reduce : Option (List ℕ)) (a b : Result Definition LangRefusal) →
        IsParsed name text reduce a → IsParsed name text reduce b → a ≡ b }
{}

/// What texts say can be reduced once more: its rows, together with other rows and entries, by the same reduce.
pub fn what_texts_say_reduces_again()
    ensures { (texts : Texts) (d : MeantDefinition) → Says texts (Ok d) → reduces_if d ≡ true }
{}
