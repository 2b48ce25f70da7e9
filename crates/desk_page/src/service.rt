//! The service of a page.

ghost use Rattle.std.specs.Prelude.{◌≡◌, ◌++◌, [], IfOk, IfSome, OnOk};
ghost use Rattle.http.specs.Request.{head_of, body_of};
ghost use Rattle.http_uri.specs.Uri.{uri_query};
ghost use Rattle.desk_page.specs.Boards.{IsNewer, IsWritten};
ghost use Rattle.desk_page.specs.Answers.{HasText, place_by_query, IsBoardAnswer, IsReplied, IsCommandAnswer, IsAnswer};
ghost use Rattle.desk_page.specs.Answers.{IsMetricsAnswer};
ghost use Rattle.http_server.specs.Response.{fields_of};
ghost use Rattle.desk_http.specs.declared.asked.Asked.TheVariants as asks;
ghost use Rattle.desk_page.specs.Fields.{json_fields, json_by, metrics_fields, AreFields};

use crate::fields::{add_date, add_group, add_json};
use crate::files::{put_icon, put_index, put_script, put_style};
use crate::metrics::{microseconds_since, outcome_of, put_metrics};
use crate::query::place_asked;
use crate::shared::{
    NoReplies, SharedPage, awaited_board, count_answer, count_closed, count_command, count_opened,
    counts_now, replies, seen_group,
};
use bytes::Bytes;
use desk_http::{Admitted, Asked, add_policy, admit, asked_for};
use desk_lines::Handler;
use http::{Request, StatusCode};
use http_server::{Response, Service};
use std::alloc::{AllocError, Global};
use std::sync::{Arc, Wait};
use std::time::{Clock, Duration, Instant};

/// So often a newer board is waited for before an answer says that there is none.
const WAITS: u64 = 8;

/// For how long each of these waits, in milliseconds.
const WAIT_MILLISECONDS: u64 = 250;

/// Answers browsers: with the page's files, with the next board, and with the replies to their commands.
pub struct PageService<D: Handler, R: Wait + Clock> {
    rt: R,
    alloc: Global,
    run: u64,
    shared: Arc<SharedPage<D>, Global>,
}

// Written out, so that callers need not prove each part's drop.
impl<D: Handler + Drop, R: Wait + Clock + Drop> Drop for PageService<D, R> {
    fn drop(self) {
        let PageService {
            rt: _,
            alloc: _,
            run: _,
            shared: _,
        } = self;
    }
}

/// The place of the board that a browser has of this run.
fn place_of(request: &Request<Bytes>, run: u64) -> Option<u64>
    ensures { result ≡ place_by_query run (uri_query (head_of request.now).uri) }
{
    match request.uri().query() {
        Some(query) => place_asked(query.as_bytes(), run),
        None => None,
    }
}

/// The next board above a place. There is none where none comes in two seconds, or the nodes begin or cease to answer.
fn next_board<D: Handler, R: Wait + Clock>(
    rt: &R,
    shared: &SharedPage<D>,
    after: Option<u64>,
) -> Result<Option<Bytes>, AllocError>
    ensures { IfOk result (λ found. IfSome found (IsNewer D.answers after)) }
{
    let was_live = seen_group(rt, shared).is_live;
    let limit = Duration::from_millis(WAIT_MILLISECONDS);
    for _wait in 0..WAITS {
        let found = awaited_board(rt, shared, after, limit)?;
        if found.is_some() || seen_group(rt, shared).is_live != was_live {
            return Ok(found);
        }
    }
    Ok(None)
}

/// Answers with a status alone.
fn put_status(status: StatusCode, response: &mut Response) -> Result<(), AllocError>
    requires { HasText 200 [] response.old.status response.old.body.items }
    ensures text { OnOk result (HasText status [] response.new.status response.new.body.items) }
    ensures fields { fields_of response.new ≡ fields_of response.old }
{
    response.status = status;
    Ok(())
}

/// Answers with a text of JSON.
fn put_json(text: Bytes, response: &mut Response) -> Result<(), AllocError>
    requires { HasText 200 [] response.old.status response.old.body.items }
    ensures text { OnOk result (HasText 200 text response.new.status response.new.body.items) }
    ensures fields { OnOk result (fields_of response.new ≡ fields_of response.old ++ json_fields) }
{
    response.body.push(text)?;
    add_json(response)
}

impl<D: Handler + Drop, R: Wait + Clock> PageService<D, R> {
    /// A service for the connections of one thread. `run` is the number of this run of the server.
    pub fn new(
        rt: R,
        alloc: Global,
        run: u64,
        shared: Arc<SharedPage<D>, Global>,
    ) -> PageService<D, R>
        ensures { result.run ≡ run }
    {
        PageService {
            rt,
            alloc,
            run,
            shared,
        }
    }

    /// Answers with the next board, if one comes.
    fn answer_board(
        &self,
        request: &Request<Bytes>,
        response: &mut Response,
    ) -> Result<(), AllocError>
        requires blank { HasText 200 [] response.old.status response.old.body.items }
        requires fields { fields_of response.old ≡ [] }
        ensures text { OnOk result (IsBoardAnswer D.answers
            (place_by_query self.now.run (uri_query (head_of request.now).uri))
            response.new.status response.new.body.items) }
        ensures fields { OnOk result (AreFields asks.Board self.now.run response.new.status (fields_of response.new)) }
    {
        let found = next_board(&self.rt, &self.shared, place_of(request, self.run))?;
        add_group(
            self.alloc,
            self.run,
            &seen_group(&self.rt, &self.shared),
            response,
        )?;
        match found {
            Some(line) => put_json(line, response),
            None => put_status(StatusCode::NO_CONTENT, response),
        }
    }

    /// Has a handler answer the lines of a body, and counts what became of it, and how long it took.
    fn counted_replies(&self, admitted: &Admitted<'_>) -> Result<Vec<u8>, NoReplies>
        ensures { IfOk result (λ out. IsWritten D.answers admitted.now.body.now out.items) }
    {
        let began = Instant::now(&self.rt).ok();
        let found = replies(&self.rt, self.alloc, &self.shared, admitted);
        let took = microseconds_since(&self.rt, &began);
        count_command(&self.rt, &self.shared, outcome_of(&found), took);
        found
    }

    /// Answers with the replies of a handler, if it gives them.
    fn forward(&self, admitted: &Admitted<'_>, response: &mut Response) -> Result<(), AllocError>
        requires blank { HasText 200 [] response.old.status response.old.body.items }
        requires fields { fields_of response.old ≡ [] }
        ensures text { OnOk result (IsReplied D.answers admitted.now.body.now
            response.new.status response.new.body.items) }
        ensures fields { OnOk result (fields_of response.new ≡ json_by response.new.status) }
    {
        match self.counted_replies(admitted) {
            Ok(out) => put_json(Bytes::from_vec(out)?, response),
            Err(_) => put_status(StatusCode::SERVICE_UNAVAILABLE, response),
        }
    }

    /// Forwards the body of this site's own page.
    fn answer_command(
        &self,
        request: &Request<Bytes>,
        response: &mut Response,
    ) -> Result<(), AllocError>
        requires blank { HasText 200 [] response.old.status response.old.body.items }
        requires fields { fields_of response.old ≡ [] }
        ensures text { OnOk result (IsCommandAnswer D.answers (head_of request.now) (body_of request.now)
            response.new.status response.new.body.items) }
        ensures fields { OnOk result (fields_of response.new ≡ json_by response.new.status) }
    {
        match admit(request) {
            Some(admitted) => self.forward(&admitted, response),
            None => put_status(StatusCode::FORBIDDEN, response),
        }
    }

    /// Answers with what was counted, and what is known of the nodes.
    fn answer_metrics(&self, response: &mut Response) -> Result<(), AllocError>
        requires blank { HasText 200 [] response.old.status response.old.body.items }
        requires fields { fields_of response.old ≡ [] }
        ensures text { OnOk result (IsMetricsAnswer response.new.status response.new.body.items) }
        ensures fields { OnOk result (fields_of response.new ≡ metrics_fields) }
    {
        let group = seen_group(&self.rt, &self.shared);
        let counts = counts_now(&self.rt, &self.shared);
        put_metrics(self.alloc, &group, &counts, response)
    }

    /// A connection begins.
    pub fn open_connection(&self) {
        count_opened(&self.rt, &self.shared);
    }

    /// A connection ends. This is the status by which its last request was refused before it came to the service, if
    /// one was.
    pub fn close_connection(&self, refused: Option<u16>) {
        count_closed(&self.rt, &self.shared);
        if let Some(status) = refused {
            count_answer(&self.rt, &self.shared, status);
        }
    }

    /// Answers what a request asks for.
    fn answer(
        &self,
        asked: Asked,
        request: &Request<Bytes>,
        response: &mut Response,
    ) -> Result<(), AllocError>
        requires blank { HasText 200 [] response.old.status response.old.body.items }
        requires fields { fields_of response.old ≡ [] }
        ensures text { OnOk result (IsAnswer D.answers asked self.now.run (head_of request.now) (body_of request.now)
            response.new.status response.new.body.items) }
        ensures fields { OnOk result (AreFields asked self.now.run response.new.status (fields_of response.new)) }
    {
        match asked {
            Asked::Index => put_index(response),
            Asked::Style => put_style(response),
            Asked::Script => put_script(response),
            Asked::Icon => put_icon(response),
            Asked::Board => self.answer_board(request, response),
            Asked::Metrics => self.answer_metrics(response),
            Asked::Command => self.answer_command(request, response),
            Asked::Absent => put_status(StatusCode::NOT_FOUND, response),
            Asked::WrongMethod => put_status(StatusCode::METHOD_NOT_ALLOWED, response),
            Asked::OtherHost => put_status(StatusCode::MISDIRECTED_REQUEST, response),
        }
    }
}

/// Each answer is that to what the request asks for.
impl<D: Handler + Drop, R: Wait + Clock> Service for PageService<D, R> {
    ghost use Rattle.std.specs.Prelude.{◌≡◌};
    ghost use Rattle.http.specs.Request.{head_of, body_of};
    ghost use Rattle.desk_page.specs.Answers.{AnswersHead};

    ghost answers = { λ old request response new. (new ≡ old)
        × AnswersHead D.answers old.run (head_of request) (body_of request) response };

    fn call(
        &mut self,
        request: &Request<Bytes>,
        response: &mut Response,
    ) -> Result<(), AllocError> {
        self.answer(asked_for(request), request, response)?;
        count_answer(&self.rt, &self.shared, response.status.as_u16());
        add_date(&self.rt, self.alloc, response)?;
        add_policy(response)
    }
}
