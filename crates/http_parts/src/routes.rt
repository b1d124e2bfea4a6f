//! Which route of which database a method and a path are.
ghost use Rattle.std.specs.Prelude.{◌≡◌, [], IfErr, IfOk, OnOk, option_map};
ghost use Rattle.http_parts.specs.Pages as pages;
ghost use Rattle.http_parts.specs.Routes as spec;
ghost use Rattle.matchit.specs.declared.error.InsertError.TheVariants.{OutOfMemory};

use crate::page::Page;
use crate::route::Route;
use matchit::{InsertError, Router};
use raven_base::NoMemory;
use std::alloc::Global;
use std::marker::Model;

// The pages of documents and queries. No two paths conflict, so that an error says that there is no memory.
fn add_document_pages(router: &mut Router<Page>) -> Result<(), InsertError>
    requires { router.old ≡ [] }
    ensures added { OnOk result (router.new ≡ pages.document_rows) }
    ensures memory { IfErr result (λ e. e ≡ OutOfMemory) }
{
    router.insert("/databases/{db}/bulk_docs", Page::BulkDocuments)?;
    router.insert("/databases/{db}/docs", Page::Documents)?;
    router.insert("/databases/{db}/queries", Page::Queries)?;
    router.insert("/databases/{db}/stats", Page::Stats)?;
    Ok(())
}

// The pages of indexes.
fn add_index_pages(router: &mut Router<Page>) -> Result<(), InsertError>
    requires { router.old ≡ pages.document_rows }
    ensures added { OnOk result (router.new ≡ pages.rows) }
    ensures memory { IfErr result (λ e. e ≡ OutOfMemory) }
{
    router.insert("/databases/{db}/admin/indexes", Page::IndexAdmin)?;
    router.insert("/databases/{db}/indexes", Page::Indexes)?;
    router.insert("/databases/{db}/indexes/staleness", Page::Staleness)?;
    Ok(())
}

// A router of all pages.
fn all_pages(alloc: Global) -> Result<Router<Page>, InsertError>
    ensures added { IfOk result (λ router. router ≡ pages.rows) }
    ensures memory { IfErr result (λ e. e ≡ OutOfMemory) }
{
    let mut router = Router::new(alloc);
    add_document_pages(&mut router)?;
    add_index_pages(&mut router)?;
    Ok(router)
}

/// The routes of databases. They take memory once, and finding one takes none.
#[derive(Drop)]
pub struct Routes {
    router: Router<Page>,
}

impl Model for Routes {
    ghost use Rattle.std.specs.Prelude.{◌≡◌};
    ghost use Rattle.http_parts.specs.Pages.{rows};

    ghost Value = { Unit {0} };

    ghost view = { λ _. tt };

    ghost invariant = { λ routes. routes.router ≡ rows };
}

impl Routes {
    /// All routes.
    pub fn new(alloc: Global) -> Result<Routes, NoMemory> {
        match all_pages(alloc) {
            Ok(router) => Ok(Routes { router }),
            Err(InsertError::OutOfMemory) => Err(NoMemory),
            Err(_) => unreachable!(),
        }
    }

    // The page that a path names.
    fn page_at(&self, path: &str) -> Option<Page>
        ensures { result ≡ pages.page_at path.now }
    {
        match self.router.at(path) {
            Ok(found) => Some(*found.value),
            Err(_) => None,
        }
    }

    /// The name of the database that a path names, and the route of a method there. Nothing of the path is decoded.
    #[tactic(auto, using(crate::proofs::Pages::found))]
    pub fn find<'p>(&self, method: &str, path: &'p str) -> Option<(&'p str, Route)>
        ensures { option_map (λ found. (found.0.now, found.1)) result ≡ spec.route_at method.now path.now }
    {
        let route = self.page_at(path)?.route(method)?;
        let (database, _) = path.strip_prefix("/databases/")?.split_once('/')?;
        Some((database, route))
    }
}
