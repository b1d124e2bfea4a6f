//! A table of texts, and the answers to its lines.
use crate::queries::query_answer;
use anyhow::{Context, Result, bail};
use index_lang::{
    DefBody, Definition, LangRefusal, Shape, auto_definition, fields, parse, row_body, same, scope,
};
use index_print::{print_map, print_reduce};
use raven_base::NoMemory;
use raven_json::write;
use raven_value::{Name, Names, Path, Paths, Text, Value, Values};
use std::alloc::Global;

/// What the lines so far have said.
#[derive(Drop)]
pub struct Table {
    /// The text of the last map.
    map: String,

    /// The definitions that were read.
    definitions: Vec<Definition>,
}

impl Table {
    /// No line was read.
    pub fn new(alloc: Global) -> Table {
        Table {
            map: String::new(alloc),
            definitions: Vec::new(alloc),
        }
    }

    /// The answer to a line.
    pub fn answer(&mut self, alloc: Global, line: &str) -> Result<String> {
        let (word, text) = line.split_once(" ").unwrap_or((line, ""));
        match word {
            "" | "#" => Ok(String::new(alloc)),
            "map" => {
                self.map = String::from_str(alloc, text)?;
                self.read(alloc, None)
            }
            "reduce" => self.read(alloc, Some(text)),
            "auto" => {
                self.definitions.push(automatic(alloc, text)?)?;
                Ok(String::new(alloc))
            }
            "same" => self.same(alloc),
            "reads" => list(alloc, &scope(alloc, self.last()?)?),
            "fields" => list(alloc, &fields(alloc, self.last()?)?),
            "row" => written(alloc, &row_body(alloc, self.last()?)?),
            "query" => query_answer(alloc, text),
            _ => bail!("no line of a table begins with {word:?}"),
        }
    }

    // The canonical spelling of the text that was read last, or why it is refused.
    fn read(&mut self, alloc: Global, reduce: Option<&str>) -> Result<String> {
        let name = Name::new(alloc, "N")?;
        match parse(alloc, name, self.map.as_str(), reduce) {
            Ok(definition) => {
                let answer = printed(alloc, &definition.body)?;
                self.definitions.push(definition)?;
                Ok(answer)
            }
            Err(LangRefusal::At { part, at, kind }) => {
                Ok(format!(in alloc; "    refused {part:?} {at} {kind:?}\n")?)
            }
            Err(LangRefusal::NoMemory) => Err(NoMemory)?,
        }
    }

    fn last(&self) -> Result<&Definition> {
        self.definitions.last().context("there is no definition")
    }

    fn same(&self, alloc: Global) -> Result<String> {
        let [.., before, last] = self.definitions.as_slice() else {
            bail!("there are no two definitions");
        };
        let answer = if same(before, last) { "yes" } else { "no" };
        Ok(format!(in alloc; "    {answer}\n")?)
    }
}

fn printed(alloc: Global, body: &DefBody) -> Result<String> {
    let DefBody::Static { map, reduce, .. } = body else {
        return Ok(String::new(alloc));
    };
    let (part, text) = match reduce {
        Some(reduce) => ("reduce", print_reduce(alloc, reduce)?),
        None => ("map", print_map(alloc, map)?),
    };
    let text = text.as_str();
    Ok(format!(in alloc; "    {part} {text}\n")?)
}

fn written(alloc: Global, value: &Value) -> Result<String> {
    let text = String::from_utf8(write(alloc, value)?)?;
    Ok(format!(in alloc; "    {text}\n")?)
}

fn list(alloc: Global, texts: &Names) -> Result<String> {
    let mut values = Values::new(alloc);
    for text in texts.as_slice() {
        values.push(Value::Text(text.clone()?))?;
    }
    written(alloc, &Value::List(values))
}

// The automatic definition of a collection and paths, with a space between them.
fn automatic(alloc: Global, text: &str) -> Result<Definition> {
    let mut words = text.split(" ");
    let collection = Text::of(alloc, words.next().unwrap_or(""))?;
    let mut fields = Paths::new(alloc);
    for word in words {
        fields.push(path(alloc, word)?)?;
    }
    let shape = Shape {
        collection,
        groups: None,
        fields,
    };
    Ok(auto_definition(Name::new(alloc, "N")?, shape))
}

// The path of these parts, with a point between them.
fn path(alloc: Global, text: &str) -> Result<Path, NoMemory> {
    let mut parts = text.split(".");
    let first = Text::of(alloc, parts.next().unwrap_or(""))?;
    let mut path = Path::of(alloc, first)?;
    for part in parts {
        path.push(Text::of(alloc, part)?)?;
    }
    Ok(path)
}
