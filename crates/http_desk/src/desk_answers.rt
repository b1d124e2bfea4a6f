//! A desk as what answers the requests of a session.
ghost use Rattle.std.specs.Prelude.{◌≡◌};

use crate::asking::ask_desk;
use http_parts::Routes;
use http_read::HttpRequest;
use http_session::Answering;
use raven_base::{Bytes, NoMemory};
use raven_desk::Desk;
use raven_value::Text;
use std::alloc::Global;
use std::marker::Model;

/// A desk, which answers the requests over HTTP to the database of one name, by routes that were made before. Contracts see the desk and the name.
pub struct DeskAnswers<'a, R, D> {
    rt: &'a R,
    routes: &'a Routes,
    desk: D,
    database: Text,
}

// Opaque drop: see raven_base.
impl<'a, R, D: Drop> Drop for DeskAnswers<'a, R, D> {
    fn drop(self) {
        let DeskAnswers {
            rt: _rt,
            routes: _routes,
            desk: _desk,
            database: _database,
        } = self;
    }
}

impl<'a, R, D> Model for DeskAnswers<'a, R, D> {
    ghost use Rattle.std.specs.Prelude.{ℕ, List};

    ghost Value = { D × List ℕ };

    ghost view = { λ a. (a.desk, a.database) };
}

impl<'a, R, D> DeskAnswers<'a, R, D> {
    /// What answers from this desk to requests to the database of this name.
    pub fn new(rt: &'a R, routes: &'a Routes, desk: D, database: Text) -> DeskAnswers<'a, R, D>
        ensures { result ≡ (desk, database) }
    {
        DeskAnswers {
            rt,
            routes,
            desk,
            database,
        }
    }

    /// Its desk.
    pub fn finish(self) -> D
        ensures { result ≡ self.entry.0 }
    {
        let DeskAnswers {
            rt: _rt,
            routes: _routes,
            desk,
            database: _database,
        } = self;
        desk
    }
}

impl<'a, R, D: Desk<R>> Answering for DeskAnswers<'a, R, D> {
    ghost use Rattle.std.specs.Thread.{IsSync};
    ghost use Rattle.http_desk.specs.Answers.{AnswersWith, Keeps};
    ghost use Rattle.http_desk.specs.Keeping.{keeps-more, keeps-none};

    ghost callable = { IsSync R.row };

    ghost answers = { AnswersWith D.link D.standing };

    ghost keeps = { Keeps D.same D.standing };

    fn ask(
        &mut self,
        alloc: Global,
        request: &HttpRequest,
        close: bool,
    ) -> Result<Bytes, NoMemory> {
        let database = self.database.as_str();
        ask_desk(
            self.rt,
            alloc,
            self.routes,
            &mut self.desk,
            database,
            request,
            close,
        )
    }

    ghost keeps_none = { keeps-none D.same D.standing D.same_here };

    ghost keeps_more = { keeps-more D.same D.standing D.same_on };
}
