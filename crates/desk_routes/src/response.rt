//! What a turn is answered.
ghost use Rattle.std.specs.Prelude.{◌≡◌, IfOk};
ghost use Rattle.std.specs.Option.{option_map};
ghost use Rattle.desk_answers.specs.Answers.{HasLine};
ghost use Rattle.desk_routes.specs.Responses as said;

use crate::ask::Refusal;
use desk_answers::{answer_text, bad_text, denial_text, fault_text, reply_text};
use news_types::{Answer, Bytes, Denial, Memory, Reply};
use ninjs_text::NinjsFault;
use std::alloc::Global;

/// What a body is.
#[derive(Clone, Copy, Debug, PartialEq, Eq)]
pub enum Media {
    Json,
    Octets,
    /// Metrics, in the text format of Prometheus.
    Metrics,
}

impl Media {
    /// The media type, as a response names it.
    pub fn text(self) -> &'static str
        ensures { result.now ≡ said.media_text self }
    {
        match self {
            Media::Json => "application/json",
            Media::Octets => "application/octet-stream",
            Media::Metrics => "text/plain; version=0.0.4",
        }
    }
}

/// A response.
#[derive(Drop)]
pub struct Response {
    pub status: u16,
    pub media: Media,
    pub body: Bytes,
}

/// What a response without a body tells.
#[derive(Clone, Copy, Debug, PartialEq, Eq)]
pub enum Notice {
    /// The caller has not the right.
    Forbidden,
    /// The entry would pass the limit.
    Full,
    /// The keeper has failed.
    Fault,
    /// There is no memory for it.
    NoMemory,
    /// What stands there is no request.
    HeadFault,
    /// The request is too large.
    TooLarge,
    /// The body comes in a coding.
    Chunked,
}

impl Notice {
    /// Its status.
    pub fn status(self) -> u16
        ensures { result ≡ said.notice_status self }
    {
        match self {
            Notice::Forbidden => 403,
            Notice::Full => 508,
            Notice::Fault => 503,
            Notice::NoMemory => 507,
            Notice::HeadFault => 400,
            Notice::TooLarge => 413,
            Notice::Chunked => 501,
        }
    }
}

/// The response of this status whose body is an answer. It takes no memory.
pub fn told_as(status: u16, body: Bytes) -> Response
    ensures { result ≡ said.told_as status body }
{
    Response {
        status,
        media: Media::Json,
        body,
    }
}

/// The response whose body is the metrics. It takes no memory.
pub fn told_metrics(body: Bytes) -> Response
    ensures { result ≡ said.metrics_response body }
{
    Response {
        status: 200,
        media: Media::Metrics,
        body,
    }
}

fn bare(alloc: Global, status: u16) -> Response
    ensures { result ≡ said.bare status }
{
    told_as(status, Bytes::of(Vec::new(alloc)))
}

/// The response without a body. It takes no memory.
pub fn notify(alloc: Global, notice: Notice) -> Response
    ensures { result ≡ said.notice_response notice }
{
    bare(alloc, notice.status())
}

/// The response to what is done, or to a repeat of it.
pub fn respond_reply(alloc: Global, reply: &Reply, repeat: bool) -> Result<Response, Memory>
    ensures { IfOk result (λ response. response ≡ said.reply_response reply.now repeat) }
{
    Ok(told_as(200, reply_text(alloc, reply, repeat)?))
}

/// The status of a denial: 403 where it is about the caller, 404 where a thing is not there, 409 for any other.
pub fn status_of_denial(denial: &Denial) -> u16
    ensures { result ≡ said.denial_status denial.now }
{
    match denial {
        Denial::UnknownUser | Denial::NoPrivilege { .. } | Denial::NotMember { .. } => 403,
        Denial::UnknownThing { .. } => 404,
        _ => 409,
    }
}

/// The response to what is denied.
pub fn respond_denial(alloc: Global, denial: &Denial) -> Result<Response, Memory>
    ensures { IfOk result (λ response. response ≡ said.denial_response denial.now) }
{
    let body = denial_text(alloc, denial)?;
    Ok(told_as(status_of_denial(denial), body))
}

/// The status of an answer that has a line: 404 where there is no such publication.
fn status_of_answer(answer: &Answer) -> u16
    ensures { result ≡ said.answer_status answer.now }
{
    match answer {
        Answer::NoPublication { .. } => 404,
        _ => 200,
    }
}

/// The response to a question.
pub fn respond_answer(alloc: Global, answer: Answer) -> Result<Response, Memory>
    ensures { IfOk result (λ response. response ≡ said.answer_response answer) }
{
    match answer {
        Answer::Frame(body) => Ok(Response {
            status: 200,
            media: Media::Octets,
            body,
        }),
        Answer::NoFrame { .. } => Ok(bare(alloc, 404)),
        Answer::Unknown { thing } => respond_denial(alloc, &Denial::UnknownThing { thing }),
        Answer::May(_) | Answer::Number { .. } => Ok(bare(alloc, 200)),
        line => respond_line(alloc, &line),
    }
}

/// The response to a question whose answer has a line.
fn respond_line(alloc: Global, answer: &Answer) -> Result<Response, Memory>
    requires { HasLine answer.now }
    ensures { IfOk result (λ response. response ≡ said.line_response answer.now) }
{
    Ok(told_as(status_of_answer(answer), answer_text(alloc, answer)?))
}

/// The response to a request that is refused before anything is asked.
pub fn refuse(alloc: Global, refusal: Refusal) -> Result<Response, Memory>
    ensures { IfOk result (λ response. response ≡ said.refusal_response refusal) }
{
    match refusal {
        Refusal::NoRoute => Ok(bare(alloc, 404)),
        Refusal::NoCaller | Refusal::BadPath => Ok(bare(alloc, 400)),
        Refusal::BadBody { property } => Ok(told_as(400, bad_text(alloc, property)?)),
        Refusal::BadItem { fault } => {
            let property = property_of_fault(fault);
            let body = fault_text(alloc, None, word_of_fault(fault), property)?;
            Ok(told_as(400, body))
        }
        Refusal::TooMany => Ok(bare(alloc, 413)),
        Refusal::Memory => Ok(bare(alloc, 507)),
    }
}

fn word_of_fault(fault: NinjsFault) -> &'static str
    ensures { result.now ≡ said.fault_word fault }
{
    match fault {
        NinjsFault::NotJson => "NotJson",
        NinjsFault::NotObject => "NotObject",
        NinjsFault::NoUri => "NoUri",
        NinjsFault::WrongType { .. } => "WrongType",
        NinjsFault::TooLong { .. } => "TooLong",
        NinjsFault::Memory => "Memory",
    }
}

/// The property that a fault is of.
fn property_of_fault(fault: NinjsFault) -> Option<&'static str>
    ensures { option_map (λ text. text.now) result ≡ said.fault_property fault }
{
    match fault {
        NinjsFault::WrongType { property } | NinjsFault::TooLong { property } => {
            Some(property.name())
        }
        _ => None,
    }
}
