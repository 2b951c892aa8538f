//! The routes of requests.
ghost use Rattle.std.specs.Prelude.{◌≡◌, [], IfOk, OnOk};
ghost use Rattle.desk_routes.specs.Routes.{beside, all_paths, if_its_method, if_method, method_of, pattern_of, route_of, routed, with_route};

use http::Method;
use matchit::Router;
use news_types::Memory;
use std::alloc::Global;
use std::marker::Model;

/// What a request may be for.
#[derive(Clone, Copy, Debug, PartialEq, Eq)]
pub enum Route {
    Requests,
    Item,
    Queue,
    FeedAfter,
    Frame,
    Receipts,
    Ingest,
    Wire,
    AgencyWire,
    AgencyItems,
    Archive,
    Packages,
    Contents,
    ItemsBelow,
    DeskItemsBelow,
    Reach,
    ReachOfTargets,
    Publication,
    Things,
    ThingsAfter,
    PublicationsAfter,
    Metrics,
}

impl Route {
    /// What its paths look like.
    pub fn pattern(self) -> &'static str
        ensures { result.now ≡ pattern_of self }
    {
        match self {
            Route::Requests => "/requests",
            Route::Item => "/items/{item}",
            Route::Queue => "/queue",
            Route::FeedAfter => "/feeds/{subscriber}/after/{k}",
            Route::Frame => "/feeds/{subscriber}/frames/{k}",
            Route::Receipts => "/feeds/{subscriber}/receipts",
            Route::Ingest => "/ingest/{provider}/ninjs",
            Route::Wire => "/ingest/{provider}/7901",
            Route::AgencyWire => "/ingest/{provider}/7901-any",
            Route::AgencyItems => "/ingest/{provider}/ninjs-any",
            Route::Archive => "/archive",
            Route::Packages => "/packages",
            Route::Contents => "/publications/{publication}/contents",
            Route::ItemsBelow => "/items/below/{n}",
            Route::DeskItemsBelow => "/desks/{desk}/items/below/{n}",
            Route::Reach | Route::ReachOfTargets => "/items/{item}/reach",
            Route::Publication => "/publications/{publication}",
            Route::Things => "/things/{of}/first",
            Route::ThingsAfter => "/things/{of}/after/{name}",
            Route::PublicationsAfter => "/items/{item}/publications/after/{n}",
            Route::Metrics => "/metrics",
        }
    }

    /// Its one method.
    pub fn method(self) -> &'static str
        ensures { result.now ≡ method_of self }
    {
        match self {
            Route::Requests
            | Route::Receipts
            | Route::Ingest
            | Route::Wire
            | Route::AgencyWire
            | Route::AgencyItems
            | Route::Archive
            | Route::Packages
            | Route::ReachOfTargets => "POST",
            Route::Item
            | Route::Queue
            | Route::FeedAfter
            | Route::Frame
            | Route::Contents
            | Route::ItemsBelow
            | Route::DeskItemsBelow
            | Route::Reach
            | Route::Publication
            | Route::Things
            | Route::ThingsAfter
            | Route::PublicationsAfter
            | Route::Metrics => "GET",
        }
    }

    /// The other route of its path, by another method; where there is none, itself.
    pub fn beside(self) -> Route
        ensures { result ≡ beside self }
    {
        match self {
            Route::Reach => Route::ReachOfTargets,
            route => route,
        }
    }
}

/// Adds a route to a router.
fn put(router: &mut Router<Route>, route: Route) -> Result<(), Memory>
    ensures { OnOk result (router.new ≡ with_route route router.old) }
{
    match router.insert(route.pattern(), route) {
        Ok(()) => Ok(()),
        Err(_) => Err(Memory),
    }
}

/// Adds all paths to a router that has none.
fn put_all(router: &mut Router<Route>) -> Result<(), Memory>
    requires { router.old ≡ [] }
    ensures { OnOk result (router.new ≡ all_paths) }
{
    put(router, Route::Requests)?;
    put(router, Route::Item)?;
    put(router, Route::Queue)?;
    put(router, Route::FeedAfter)?;
    put(router, Route::Frame)?;
    put(router, Route::Receipts)?;
    put(router, Route::Ingest)?;
    put(router, Route::Wire)?;
    put(router, Route::AgencyWire)?;
    put(router, Route::AgencyItems)?;
    put(router, Route::Archive)?;
    put(router, Route::Packages)?;
    put(router, Route::Contents)?;
    put(router, Route::ItemsBelow)?;
    put(router, Route::DeskItemsBelow)?;
    put(router, Route::Reach)?;
    put(router, Route::Publication)?;
    put(router, Route::Things)?;
    put(router, Route::ThingsAfter)?;
    put(router, Route::PublicationsAfter)?;
    put(router, Route::Metrics)
}

/// The router of all paths.
fn router_of_all(alloc: Global) -> Result<Router<Route>, Memory>
    ensures { IfOk result (λ router. router ≡ all_paths) }
{
    let mut router = Router::new(alloc);
    // One `?` beside a living router: each is proved with all that letting it go does.
    put_all(&mut router)?;
    Ok(router)
}

/// The route of a path.
fn route_at(router: &Router<Route>, path: &str) -> Option<Route>
    requires { router.now ≡ all_paths }
    ensures { result ≡ route_of path.now }
{
    match router.at(path) {
        Ok(found) => Some(*found.value),
        Err(_) => None,
    }
}

/// The routes by their paths: made once, for any number of requests.
#[derive(Drop)]
pub struct Routes {
    alloc: Global,
    router: Router<Route>,
}

impl Model for Routes {
    ghost use Rattle.std.specs.Prelude.{◌≡◌};
    ghost use Rattle.desk_routes.specs.Routes.{all_paths};

    ghost Value = { Unit {0} };

    ghost view = { λ a. tt };

    ghost invariant = { λ a. a.router ≡ all_paths };
}

impl Routes {
    /// The routes.
    pub fn new(alloc: Global) -> Result<Routes, Memory> {
        Ok(Routes {
            alloc,
            router: router_of_all(alloc)?,
        })
    }

    /// The allocator that they were made with.
    pub fn alloc(&self) -> Global {
        self.alloc
    }

    /// The route that has this method and path, if there is one.
    pub fn find(&self, method: &Method, path: &str) -> Option<Route>
        ensures { result ≡ routed method.now path.now }
    {
        match route_at(&self.router, path) {
            Some(route) => if_method(method, route),
            None => None,
        }
    }
}

/// The route or the other one of its path, by the method.
fn if_method(method: &Method, route: Route) -> Option<Route>
    ensures { result ≡ if_method method.now (Some route) }
{
    if method.as_str() == route.method() {
        Some(route)
    } else {
        if_its_method(method, route.beside())
    }
}

/// The route, where the method is its own.
fn if_its_method(method: &Method, route: Route) -> Option<Route>
    ensures { result ≡ if_its_method method.now route }
{
    if method.as_str() == route.method() {
        Some(route)
    } else {
        None
    }
}
