//! Who may ask what.
ghost use Rattle.std.specs.Prelude.{◌≡◌};
ghost use Rattle.desk_routes.specs.Rights as said;
ghost use Rattle.desk_routes.specs.Rights.{Guards};

use crate::ask::HttpAsk;
use news_types::{Answer, Name, Privilege, Query};

/// The right that what is asked wants of its caller.
#[derive(Clone, Copy, PartialEq, Eq)]
pub enum Right {
    /// It is judged by rules of its own.
    Anyone,
    /// A user.
    User,
    /// A user with this privilege.
    Holder(Privilege),
    /// That subscriber alone.
    Subscriber(Name),
    /// That subscriber, or a user with this privilege.
    SubscriberOr(Name, Privilege),
}

/// How it is found out whether a caller has a right.
#[derive(Clone, Copy, PartialEq, Eq)]
pub enum Gate {
    /// It is known without the list.
    Known(bool),
    /// The answer to this question says it.
    Asks(Query),
}

/// The right that is wanted.
pub fn right_of(ask: &HttpAsk) -> Right
    ensures { result ≡ said.right_of ask.now }
{
    match ask {
        HttpAsk::Request { .. } => Right::Anyone,
        HttpAsk::Query(query) => right_of_query(*query),
        HttpAsk::Receipt { subscriber, .. } => Right::Subscriber(*subscriber),
        HttpAsk::Ingest { .. } => Right::Holder(Privilege::Ingest),
        HttpAsk::Archive { .. } | HttpAsk::Package { .. } | HttpAsk::Contents { .. } => Right::User,
        HttpAsk::Desk(_) => Right::User,
    }
}

fn right_of_query(query: Query) -> Right
    ensures { result ≡ said.right_of_query query }
{
    match query {
        Query::Feed { subscriber, .. } | Query::Frame { subscriber, .. } => {
            Right::SubscriberOr(subscriber, Privilege::Subscribers)
        }
        _ => Right::User,
    }
}

/// How it is found out whether the caller has the right.
pub fn gate_of(caller: Name, right: Right) -> Gate
    ensures { Guards result caller right }
{
    match right {
        Right::Anyone => Gate::Known(true),
        Right::User => Gate::Asks(Query::May {
            user: caller,
            privilege: None,
        }),
        Right::Holder(privilege) => asks(caller, privilege),
        Right::Subscriber(subscriber) => Gate::Known(caller == subscriber),
        Right::SubscriberOr(subscriber, privilege) => {
            if caller == subscriber {
                return Gate::Known(true);
            }
            asks(caller, privilege)
        }
    }
}

fn asks(user: Name, privilege: Privilege) -> Gate
    ensures { result ≡ said.asks user privilege }
{
    Gate::Asks(Query::May {
        user,
        privilege: Some(privilege),
    })
}

/// Whether the answer says that it is allowed.
pub fn allows(answer: &Answer) -> bool
    ensures { result ≡ said.allows answer.now }
{
    match answer {
        Answer::May(allowed) => *allowed,
        _ => false,
    }
}
