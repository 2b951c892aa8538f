//! Requests, and what a connection gives next.
use http::Method;
use news_types::{Bytes, Name, Text};

/// A request of a connection.
#[derive(Drop)]
pub struct HttpRequest {
    /// The method, as it was sent.
    pub method: Method,
    /// The whole target, as it was sent.
    pub target: Text,
    /// Who asks: the value of the one `X-User` line, if that is a name.
    pub user: Option<Name>,
    /// The connection is to end behind its answer: it is HTTP/1.0, or a `Connection` line says `close`.
    pub close: bool,
    /// The body, at most 4194304 bytes.
    pub body: Bytes,
}

/// What a connection gives next.
#[derive(Drop)]
pub enum Wire {
    /// The next request.
    Request(HttpRequest),
    /// The input ended before a request's first byte.
    End,
    /// What stands there is no head, or ends inside a head or a body, or its `Content-Length` is not of the form.
    HeadFault,
    /// A head of more than 16384 bytes or 64 header lines, or a body of more than 4194304 bytes.
    TooLarge,
    /// A head with a `Transfer-Encoding` line, which is not read here.
    Chunked,
    /// The source failed. No byte is lost.
    ReadFault,
    /// There is no memory for it. No byte is lost.
    Memory,
}
