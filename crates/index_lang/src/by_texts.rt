//! Definitions that their texts say.
ghost use Rattle.std.specs.Prelude.{◌≡◌, IfOk, IfSome, IsUtf8, false};
ghost use Rattle.index_definition.specs.DefinitionView.{definition_view};
ghost use Rattle.index_lang.specs.Bodies.{texts_behind};
ghost use Rattle.index_lang.specs.ByTexts.{Gives, IsByTexts};
ghost use Rattle.spec_index.specs.World.{is_automatic};

use crate::parsing::parse;
use index_definition::{Definition, LangRefusal};
use raven_base::NoMemory;
use raven_value::Name;
use std::alloc::Global;
use std::marker::Model;
use std::sync::Arc;

/// A definition that its texts say: it was read of them, and nothing else makes one. It is shared.
pub struct TextDefinition {
    shared: Arc<Definition>,
}

// Opaque drop: see raven_base.
impl Drop for TextDefinition {
    fn drop(self) {
        let TextDefinition { shared: _shared } = self;
    }
}

impl Model for TextDefinition {
    ghost use Rattle.index_definition.specs.DefinitionView.{definition_view};
    ghost use Rattle.index_lang.specs.ByTexts.{IsByTexts, Named, named_code};

    ghost Value = { Named };

    ghost coded = { named_code };

    ghost view = { λ d. record { name = d.shared.value.name; definition = definition_view d.shared.value.body } };

    ghost invariant = { λ d. IsByTexts (definition_view d.shared.value.body) };
}

impl TextDefinition {
    /// Its name.
    pub fn name(&self) -> &Name
        ensures { result.now ≡ self.now.name }
    {
        &self.shared.name
    }

    /// The definition, which is shared. It is no automatic one.
    #[tactic(auto, using(crate::proofs::Texts::said))]
    pub fn into_shared(self) -> Arc<Definition>
        ensures name { result.value.name ≡ self.name }
        ensures body { definition_view result.value.body ≡ self.definition }
        ensures texts { IsByTexts self.definition }
        ensures given { is_automatic self.definition ≡ false }
    {
        let TextDefinition { shared } = self;
        shared
    }
}

// A text is in UTF-8.
fn is_text(text: &str)
    ensures { IsUtf8 text.now }
{
    let _bytes = text.as_bytes();
}

fn are_texts(map: &str, reduce: Option<&str>)
    ensures map { IsUtf8 map.now }
    ensures reduce { IfSome reduce.entry (λ text. IsUtf8 text.now) }
{
    is_text(map);
    if let Some(reduce) = reduce {
        is_text(reduce);
    }
}

#[tactic(auto, using(crate::proofs::Texts::sealing))]
fn shared(alloc: Global, definition: Definition) -> Result<TextDefinition, NoMemory>
    requires { IsByTexts (definition_view definition.body) }
    ensures { IfOk result (λ d. (d.name ≡ definition.name) × (d.definition ≡ definition_view definition.body)) }
{
    let shared = Arc::new(alloc, definition)?;
    Ok(TextDefinition { shared })
}

/// The definition that these texts say, under this name, as `parse` reads them. It keeps that they say it.
#[tactic(auto, using(crate::proofs::Texts::giving))]
pub fn parse_texts(
    alloc: Global,
    name: Name,
    map: &str,
    reduce: Option<&str>,
) -> Result<TextDefinition, LangRefusal>
    ensures { Gives name (texts_behind (map.entry, reduce.entry)) result }
{
    are_texts(map, reduce);
    let definition = parse(alloc, name, map, reduce)?;
    Ok(shared(alloc, definition)?)
}
