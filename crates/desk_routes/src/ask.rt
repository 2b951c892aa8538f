//! What a request asks, or why it is refused before anything is asked.
ghost use Rattle.std.specs.Prelude.{◌≡◌, All, IfOk};
ghost use Rattle.desk_routes.specs.Asking as said;
ghost use Rattle.wire_bodies.specs.Bodies.{FitsMember, members_of};
ghost use Rattle.desk_routes.specs.Asking.{FitsAsk, FitsAsked, IsSaid, or_refused};
ghost use Rattle.desk_routes.specs.Routes.{routed};
ghost use Rattle.desk_routes.specs.declared.ask.Refusal.TheVariants.{NoRoute, NoCaller};

use crate::path::{name_at, number_at};
use crate::route::{Route, Routes};
use command_words::IngestFormat;
use desk_lines::{
    Asked, Described, LineFault, LineProperty, read_archive_body, read_package_body,
    read_reach_body, read_receipt_body, read_register, read_request_body,
};
use desk_views::{DeskQuestion, Register};
use http_wire::HttpRequest;
use news_types::{Command, Incoming, Name, Names, Query, Text};
use ninjs_text::NinjsFault;
use std::alloc::Global;
use std::marker::Model;
use wire_bodies::{BodyFault, BodyMember, read_members};

/// What is asked of the room.
#[derive(Drop)]
pub enum HttpAsk {
    /// A request: who makes it, its number, and the command.
    Request {
        caller: Name,
        number: u64,
        command: Command,
    },
    /// A question on the list as it is.
    Query(Query),
    /// A receipt: the subscriber has so many entries of its feed.
    Receipt {
        subscriber: Name,
        n: u32,
    },
    /// An item of a provider.
    Ingest {
        provider: Name,
        incoming: Incoming,
    },
    /// A question on the archive: the page, from 0, of what this query finds.
    Archive {
        page: u32,
        query: Text,
    },
    /// A package to be published: who asks for it, by which number.
    Package {
        caller: Name,
        number: u64,
        described: Described,
    },
    /// A question for what a publication holds as a package.
    Contents {
        publication: u32,
    },
    /// A question of the desk.
    Desk(DeskQuestion),
}

/// Who asks, and what.
#[derive(Drop)]
pub struct Asking {
    pub caller: Name,
    pub ask: HttpAsk,
}

/// What is asked in one turn.
#[derive(Drop)]
pub enum RoomAsk {
    /// A caller asks it.
    By(Asking),
    /// The metrics, for which nobody has to say a name.
    Metrics,
}

/// The members of a wire, in order.
#[derive(Drop)]
pub struct WireMembers {
    items: Vec<BodyMember>,
}

impl Model for WireMembers {
    ghost use Rattle.std.specs.Prelude.{List};
    ghost use Rattle.wire_bodies.specs.declared.member.BodyMember.{BodyMember};

    ghost Value = { List BodyMember };

    ghost view = { λ a. a.items.items };
}

impl WireMembers {
    /// These members.
    pub fn of(items: Vec<BodyMember>) -> WireMembers
        ensures { result ≡ items.items }
    {
        WireMembers { items }
    }

    /// The members as a vector, which takes no memory.
    pub fn into_vec(self) -> Vec<BodyMember>
        ensures { result.items ≡ self }
    {
        self.items
    }
}

/// A wire that a caller brings in for a provider.
#[derive(Drop)]
pub struct WireAsk {
    pub caller: Name,
    pub provider: Name,
    pub members: WireMembers,
}

/// What a request asks.
#[derive(Drop)]
pub enum HttpAsked {
    /// What is asked in one turn.
    Room(RoomAsk),
    /// A wire, of which each story is asked in a turn of its own.
    Wire(WireAsk),
}

/// Why a request is refused before anything is asked.
#[derive(Clone, Copy, Debug, PartialEq, Eq)]
pub enum Refusal {
    /// No route has its method and path.
    NoRoute,
    /// It says no name of its caller.
    NoCaller,
    /// A name or a number in its path is none.
    BadPath,
    /// Its body is no line of the kind, for this first bad property.
    BadBody { property: LineProperty },
    /// Its body is no ninjs item, for this first fault.
    BadItem { fault: NinjsFault },
    /// The wire that it brings in has more than 4,096 members.
    TooMany,
    /// There is no memory for it.
    Memory,
}

impl Routes {
    /// Reads what a request asks.
    ///
    /// # Errors
    ///
    /// The first that holds of these: no route has its method and path, it has no caller, a name or a number in its path is
    /// none, its body is not of the form or is a wire of more than 4,096 members. Where there is no memory, `Memory` may come in
    /// their place. The metrics need no caller.
    pub fn read_ask(&self, request: &HttpRequest) -> Result<HttpAsked, Refusal>
        ensures value { IsSaid (said.asked request.now) result }
        ensures fits { IfOk result FitsAsked }
    {
        let route = route_of(self, request)?;
        asked_by(self.alloc(), route, request)
    }
}

/// What a request asks by a route.
fn asked_by(alloc: Global, route: Route, request: &HttpRequest) -> Result<HttpAsked, Refusal>
    ensures value { IsSaid (said.asked_by route request.now) result }
    ensures fits { IfOk result FitsAsked }
{
    match route {
        Route::Metrics => Ok(HttpAsked::Room(RoomAsk::Metrics)),
        Route::Wire => wire_asked(alloc, IngestFormat::Wire, request),
        Route::AgencyWire => wire_asked(alloc, IngestFormat::AgencyWire, request),
        Route::AgencyItems => wire_asked(alloc, IngestFormat::AgencyItems, request),
        route => Ok(HttpAsked::Room(RoomAsk::By(asking_of(alloc, route, request)?))),
    }
}

fn wire_asked(
    alloc: Global,
    format: IngestFormat,
    request: &HttpRequest,
) -> Result<HttpAsked, Refusal>
    ensures value { IsSaid (said.wire_asked format request.now) result }
    ensures fits { IfOk result FitsAsked }
{
    Ok(HttpAsked::Wire(wire_ask(alloc, format, request)?))
}

/// The wire that a request brings in, in this format.
fn wire_ask(alloc: Global, format: IngestFormat, request: &HttpRequest) -> Result<WireAsk, Refusal>
    ensures value { IsSaid (said.wire_ask format request.now) result }
    ensures fits { IfOk result (λ wire. All FitsMember wire.members) }
{
    let caller = caller_of(request)?;
    let provider = needs_name(request.target.as_str(), 2)?;
    let members = members_in(alloc, format, request.body.as_slice())?;
    Ok(WireAsk {
        caller,
        provider,
        members,
    })
}

/// The members of a body in this format.
fn members_in(alloc: Global, format: IngestFormat, body: &[u8]) -> Result<WireMembers, Refusal>
    ensures value { IsSaid (said.few_members (members_of format body.now)) result }
    ensures fits { IfOk result (λ members. All FitsMember members) }
{
    match read_members(alloc, format, body) {
        Ok(members) => Ok(WireMembers::of(members)),
        Err(BodyFault::TooMany) => Err(Refusal::TooMany),
        Err(BodyFault::Memory) => Err(Refusal::Memory),
    }
}

/// Who asks by a route, and what.
fn asking_of(alloc: Global, route: Route, request: &HttpRequest) -> Result<Asking, Refusal>
    ensures value { IsSaid (said.asking route request.now) result }
    ensures fits { IfOk result (λ asking. FitsAsk asking.ask) }
{
    let caller = caller_of(request)?;
    let path = request.target.as_str();
    let ask = ask_by(alloc, route, caller, path, request.body.as_slice())?;
    Ok(Asking { caller, ask })
}

fn route_of(routes: &Routes, request: &HttpRequest) -> Result<Route, Refusal>
    ensures { result ≡ or_refused NoRoute (routed request.now.method request.now.target) }
{
    match routes.find(&request.method, request.target.as_str()) {
        Some(route) => Ok(route),
        None => Err(Refusal::NoRoute),
    }
}

fn caller_of(request: &HttpRequest) -> Result<Name, Refusal>
    ensures { result ≡ or_refused NoCaller request.now.user }
{
    match request.user {
        Some(caller) => Ok(caller),
        None => Err(Refusal::NoCaller),
    }
}

/// What a caller asks by a route.
fn ask_by(
    alloc: Global,
    route: Route,
    caller: Name,
    path: &str,
    body: &[u8],
) -> Result<HttpAsk, Refusal>
    ensures value { IsSaid (said.ask_by route caller path.now body.now) result }
    ensures fits { IfOk result FitsAsk }
{
    match route {
        Route::Requests => request_ask(alloc, caller, body),
        Route::Item => item_ask(path),
        Route::Queue => Ok(HttpAsk::Query(Query::Queue)),
        Route::FeedAfter => feed_ask(path),
        Route::Frame => frame_ask(path),
        Route::Receipts => receipt_ask(alloc, path, body),
        Route::Ingest => ingest_ask(alloc, path, body),
        Route::Archive => archive_ask(alloc, body),
        Route::Packages => package_ask(alloc, caller, body),
        Route::Contents => contents_ask(path),
        Route::ItemsBelow => items_ask(path),
        Route::DeskItemsBelow => desk_items_ask(path),
        Route::Reach => reach_ask(alloc, path),
        Route::ReachOfTargets => targets_ask(alloc, path, body),
        Route::Publication => publication_ask(path),
        Route::Things => things_ask(path),
        Route::ThingsAfter => things_after_ask(path),
        Route::PublicationsAfter => publications_ask(path),
        Route::Wire | Route::AgencyWire | Route::AgencyItems | Route::Metrics => {
            Err(Refusal::NoRoute)
        }
    }
}

fn needs_name(path: &str, slashes: usize) -> Result<Name, Refusal>
    ensures { result ≡ said.name_at slashes path.now }
{
    match name_at(path, slashes) {
        Some(name) => Ok(name),
        None => Err(Refusal::BadPath),
    }
}

fn needs_number(path: &str, slashes: usize) -> Result<u32, Refusal>
    ensures { result ≡ said.number_at slashes path.now }
{
    match number_at(path, slashes) {
        Some(number) => Ok(number),
        None => Err(Refusal::BadPath),
    }
}

fn item_ask(path: &str) -> Result<HttpAsk, Refusal>
    ensures value { result ≡ said.item_ask path.now }
    ensures fits { IfOk result FitsAsk }
{
    let item = needs_number(path, 2)?;
    Ok(HttpAsk::Query(Query::Item { item }))
}

fn feed_ask(path: &str) -> Result<HttpAsk, Refusal>
    ensures value { result ≡ said.feed_ask path.now }
    ensures fits { IfOk result FitsAsk }
{
    let subscriber = needs_name(path, 2)?;
    let after = needs_number(path, 4)?;
    Ok(HttpAsk::Query(Query::Feed { subscriber, after }))
}

fn frame_ask(path: &str) -> Result<HttpAsk, Refusal>
    ensures value { result ≡ said.frame_ask path.now }
    ensures fits { IfOk result FitsAsk }
{
    let subscriber = needs_name(path, 2)?;
    let k = needs_number(path, 4)?;
    Ok(HttpAsk::Query(Query::Frame { subscriber, k }))
}

fn request_ask(alloc: Global, caller: Name, body: &[u8]) -> Result<HttpAsk, Refusal>
    ensures value { IsSaid (said.request_ask caller body.now) result }
    ensures fits { IfOk result FitsAsk }
{
    match read_request_body(alloc, caller, body) {
        Ok(asked) => Ok(of_line(asked)),
        Err(LineFault::Bad { property }) => Err(Refusal::BadBody { property }),
        Err(LineFault::Memory) => Err(Refusal::Memory),
    }
}

fn receipt_ask(alloc: Global, path: &str, body: &[u8]) -> Result<HttpAsk, Refusal>
    ensures value { IsSaid (said.receipt_ask path.now body.now) result }
    ensures fits { IfOk result FitsAsk }
{
    let subscriber = needs_name(path, 2)?;
    match read_receipt_body(alloc, subscriber, body) {
        Ok(asked) => Ok(of_line(asked)),
        Err(LineFault::Bad { property }) => Err(Refusal::BadBody { property }),
        Err(LineFault::Memory) => Err(Refusal::Memory),
    }
}

fn ingest_ask(alloc: Global, path: &str, body: &[u8]) -> Result<HttpAsk, Refusal>
    ensures value { IsSaid (said.ingest_ask path.now body.now) result }
    ensures fits { IfOk result FitsAsk }
{
    let provider = needs_name(path, 2)?;
    match ninjs_text::read(alloc, body) {
        Ok(incoming) => Ok(HttpAsk::Ingest { provider, incoming }),
        Err(NinjsFault::Memory) => Err(Refusal::Memory),
        Err(fault) => Err(Refusal::BadItem { fault }),
    }
}

fn archive_ask(alloc: Global, body: &[u8]) -> Result<HttpAsk, Refusal>
    ensures value { IsSaid (said.archive_ask body.now) result }
    ensures fits { IfOk result FitsAsk }
{
    match read_archive_body(alloc, body) {
        Ok(asked) => Ok(of_line(asked)),
        Err(LineFault::Bad { property }) => Err(Refusal::BadBody { property }),
        Err(LineFault::Memory) => Err(Refusal::Memory),
    }
}

fn package_ask(alloc: Global, caller: Name, body: &[u8]) -> Result<HttpAsk, Refusal>
    ensures value { IsSaid (said.package_ask caller body.now) result }
    ensures fits { IfOk result FitsAsk }
{
    match read_package_body(alloc, body) {
        Ok(read) => Ok(HttpAsk::Package {
            caller,
            number: read.number,
            described: read.described,
        }),
        Err(LineFault::Bad { property }) => Err(Refusal::BadBody { property }),
        Err(LineFault::Memory) => Err(Refusal::Memory),
    }
}

fn contents_ask(path: &str) -> Result<HttpAsk, Refusal>
    ensures value { result ≡ said.contents_ask path.now }
    ensures fits { IfOk result FitsAsk }
{
    let publication = needs_number(path, 2)?;
    Ok(HttpAsk::Contents { publication })
}

fn items_ask(path: &str) -> Result<HttpAsk, Refusal>
    ensures value { result ≡ said.items_ask path.now }
    ensures fits { IfOk result FitsAsk }
{
    let below = needs_number(path, 3)?;
    Ok(items_below(None, below))
}

fn desk_items_ask(path: &str) -> Result<HttpAsk, Refusal>
    ensures value { result ≡ said.desk_items_ask path.now }
    ensures fits { IfOk result FitsAsk }
{
    let desk = needs_name(path, 2)?;
    let below = needs_number(path, 5)?;
    Ok(items_below(Some(desk), below))
}

/// The question for the items of a desk, or of all, in any state and held by anyone.
fn items_below(desk: Option<Name>, below: u32) -> HttpAsk
    ensures { result ≡ HttpAsk.Desk (DeskQuestion.Items desk below None None) }
{
    HttpAsk::Desk(DeskQuestion::Items {
        desk,
        below,
        state: None,
        user: None,
    })
}

fn reach_ask(alloc: Global, path: &str) -> Result<HttpAsk, Refusal>
    ensures value { result ≡ said.reach_ask path.now }
    ensures fits { IfOk result FitsAsk }
{
    let item = needs_number(path, 2)?;
    Ok(HttpAsk::Desk(DeskQuestion::Reach {
        item,
        targets: Names::of(Vec::new(alloc)),
    }))
}

fn targets_ask(alloc: Global, path: &str, body: &[u8]) -> Result<HttpAsk, Refusal>
    ensures value { IsSaid (said.targets_ask path.now body.now) result }
    ensures fits { IfOk result FitsAsk }
{
    let item = needs_number(path, 2)?;
    match read_reach_body(alloc, body) {
        Ok(targets) => Ok(HttpAsk::Desk(DeskQuestion::Reach { item, targets })),
        Err(LineFault::Bad { property }) => Err(Refusal::BadBody { property }),
        Err(LineFault::Memory) => Err(Refusal::Memory),
    }
}

fn publication_ask(path: &str) -> Result<HttpAsk, Refusal>
    ensures value { result ≡ said.publication_ask path.now }
    ensures fits { IfOk result FitsAsk }
{
    let number = needs_number(path, 2)?;
    Ok(HttpAsk::Query(Query::Publication { number }))
}

/// The kind of things that the part behind so many slashes of a path names.
fn needs_register(path: &str, slashes: usize) -> Result<Register, Refusal>
    ensures { result ≡ said.register_at slashes path.now }
{
    let word = needs_name(path, slashes)?;
    match read_register(word.as_str()) {
        Some(register) => Ok(register),
        None => Err(Refusal::BadPath),
    }
}

fn things_ask(path: &str) -> Result<HttpAsk, Refusal>
    ensures value { result ≡ said.things_ask path.now }
    ensures fits { IfOk result FitsAsk }
{
    let of = needs_register(path, 2)?;
    Ok(HttpAsk::Desk(DeskQuestion::Things { of, after: None }))
}

fn things_after_ask(path: &str) -> Result<HttpAsk, Refusal>
    ensures value { result ≡ said.things_after_ask path.now }
    ensures fits { IfOk result FitsAsk }
{
    let of = needs_register(path, 2)?;
    let after = Some(needs_name(path, 4)?);
    Ok(HttpAsk::Desk(DeskQuestion::Things { of, after }))
}

fn publications_ask(path: &str) -> Result<HttpAsk, Refusal>
    ensures value { result ≡ said.publications_ask path.now }
    ensures fits { IfOk result FitsAsk }
{
    let item = needs_number(path, 2)?;
    let after = needs_number(path, 5)?;
    Ok(HttpAsk::Desk(DeskQuestion::Publications { item, after }))
}

fn of_line(asked: Asked) -> HttpAsk
    ensures { result ≡ said.of_line asked }
{
    match asked {
        Asked::Request {
            caller,
            number,
            command,
        } => HttpAsk::Request {
            caller,
            number,
            command,
        },
        Asked::Query(query) => HttpAsk::Query(query),
        Asked::Receipt { subscriber, n } => HttpAsk::Receipt { subscriber, n },
        Asked::Archive { page, query } => HttpAsk::Archive { page, query },
        Asked::Desk(question) => HttpAsk::Desk(question),
    }
}
