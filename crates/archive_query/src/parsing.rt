//! Texts are read as queries.
ghost use Rattle.std.specs.Prelude.{◌≡◌, ℕ, IfOk, IfErr, MatchResult};
ghost use Rattle.archive_query.specs.declared.parsing.QueryFault.TheVariants as fault_is;
ghost use Rattle.archive_query.specs.Query.{Query};
ghost use Rattle.archive_query.specs.Grammar.{IsQuery};
ghost use Rattle.archive_query.specs.View.{query_of};
ghost use Rattle.archive_query.specs.Faults.{IsFaultOf};
ghost use Rattle.archive_query.specs.Parsing as spec;
ghost use Rattle.archive_query.specs.Parsing.{IsReadAs, fault_of};

use crate::ask::Ask;
use crate::reader::{Reader, Stop};
use crate::tokens::Tokens;
use std::alloc::Global;

/// The most bytes that a query may have.
const LONGEST: usize = 65_536;

/// Why a text is no query.
#[derive(Clone, Copy, Debug, PartialEq, Eq)]
pub enum QueryFault {
    /// It is too long.
    TooLong { length: u64 },
    /// No query goes on with the token at this place, or the text ends there too soon.
    At { at: u64 },
    /// The token at this place opens one level too many.
    TooDeep { at: u64 },
    /// There was no memory.
    Memory,
}

/// Reads a text as a query.
///
/// Its tokens have one space between two. A value in quotes goes on to its closing quote.
///
/// # Errors
///
/// `TooLong` exactly where the text has more than 65536 bytes. Else the first token with which no query goes on, or
/// with which only one of more than 32 levels does; where there is no memory, `Memory` may come in its place.
pub fn parse(alloc: Global, text: &str) -> Result<Ask, QueryFault>
    // What is read is spelled so.
    ensures found { IfOk result (λ ask. IsQuery text.now (query_of ask)) }
    // What is spelled so is read, unless there is no memory.
    ensures only { (q : Query) → IsQuery text.now q → MatchResult result (λ ask. query_of ask ≡ q) (λ fault. fault ≡ fault_is.Memory) }
    ensures fault { IfErr result (IsFaultOf text.now) }
{
    let length = text.len();
    if length > LONGEST {
        return Err(QueryFault::TooLong {
            length: length as u64,
        });
    }
    read_text(alloc, text)
}

/// Reads the tokens of a text.
fn read_text(alloc: Global, text: &str) -> Result<Ask, QueryFault>
    ensures { IsReadAs text.now result (spec.read_text text.now) }
{
    let mut tokens = Tokens::of(text);
    let mut reader = Reader::new(alloc);
    let mut at: u64 = 0;
    while let Some(token) = tokens.next() {
        if let Err(stop) = reader.step(token) {
            return Err(fault_at(stop, at));
        }
        at = (text.len() - tokens.len()) as u64;
    }
    match reader.end() {
        Ok(ask) => Ok(ask),
        Err(stop) => Err(fault_at(stop, at)),
    }
}

/// The fault of a token at this place.
fn fault_at(stop: Stop, at: u64) -> QueryFault
    ensures { result ≡ fault_of stop at }
{
    match stop {
        Stop::Misplaced => QueryFault::At { at },
        Stop::TooDeep => QueryFault::TooDeep { at },
        Stop::Memory => QueryFault::Memory,
    }
}
