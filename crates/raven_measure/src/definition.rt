//! The index that is measured.
ghost use Rattle.std.specs.Prelude.{◌≡◌, IfOk};
ghost use Rattle.raven_measure.specs.Defining.{IsDefining};
ghost use Rattle.spec_measure.specs.Requests.{index_name as spec_index_name};

use index_definition::LangRefusal;
use index_lang::parse_texts;
use raven_base::NoMemory;
use raven_request::Request;
use raven_value::{IdRefusal, Name};
use std::alloc::Global;

/// The name of the index.
pub const INDEX: &str = "Orders/ByCompanyMonth";

const MAP: &str =
    "from o in docs.Orders select new { o.Company, o.OrderedAt.Year, o.OrderedAt.Month, Total = o.Cents, Count = 1 }";

const REDUCE: &str =
    "from r in results group r by new { r.Company, r.Year, r.Month } into g select new { g.Key.Company, g.Key.Year, g.Key.Month, Total = g.Sum(x => x.Total), Count = g.Sum(x => x.Count) }";

/// The name of the index, as a name.
pub fn index_name(alloc: Global) -> Result<Name, NoMemory>
    ensures { IfOk result (λ name. name ≡ spec_index_name) }
{
    match Name::new(alloc, INDEX) {
        Ok(name) => Ok(name),
        Err(IdRefusal::NoMemory) => Err(NoMemory),
        Err(_) => unreachable!(),
    }
}

/// The request that defines the index, if its texts are a definition.
pub fn defining(alloc: Global) -> Result<Option<Request>, NoMemory>
    ensures { IfOk result IsDefining }
{
    match parse_texts(alloc, index_name(alloc)?, MAP, Some(REDUCE)) {
        Ok(definition) => Ok(Some(Request::Define { definition })),
        Err(LangRefusal::At { .. }) => Ok(None),
        Err(LangRefusal::NoMemory) => Err(NoMemory),
    }
}
