//! A query is read token by token.
ghost use Rattle.std.specs.Prelude.{◌≡◌, [], ◌∷◌, ◌++◌, IfOk, OnOk, IsTrue, ◌<◌, vec_len};
ghost use Rattle.std.specs.Option.{option_map};
ghost use Rattle.archive_query.specs.Query.{Tested, Text};
ghost use Rattle.archive_query.specs.Grammar.{text_said};
ghost use Rattle.archive_query.specs.View.{query_of, queries_of, test_of};
ghost use Rattle.archive_query.specs.Reading as spec;
ghost use Rattle.archive_query.specs.Reading.{start, all_joined, any_joined, closed, put, wanting, putting, opening, closing, unit_step, joint_step, field_wants, step, Negation, Group, nothing_waits};
ghost use Rattle.archive_query.specs.Readers.{waits_of, level_of, levels_of, wants_of, state_of, Steps, TakesNegation, Ends};

use crate::ask::{Ask, both, either, negated};
use crate::test::{Test, TextTest};
use crate::value::{number_of, text_of};
use crate::words::{
    NumberField, NumberOperator, TextField, TextOperator, act_of, number_field_of,
    number_operator_of, text_field_of, text_operator_of,
};
use news_types::{Kind, Memory};
use std::alloc::{AllocError, AllocFailed, Global};
use std::mem;

/// How many parentheses and negations may be open.
const MOST_LEVELS: usize = 32;

/// Why a token is not read.
#[derive(Clone, Copy, Debug, PartialEq, Eq)]
pub(crate) enum Stop {
    /// No query goes on with it.
    Misplaced,
    /// It opens one level too many.
    TooDeep,
    /// There was no memory.
    Memory,
}

impl From<Memory> for Stop {
    ghost use Rattle.archive_query.specs.declared.reader.Stop.TheVariants as stop_is;

    ghost from_gives = { λ _ stop. stop ≡ stop_is.Memory };

    fn from(_: Memory) -> Stop {
        Stop::Memory
    }
}

impl From<AllocError> for Stop {
    ghost use Rattle.archive_query.specs.declared.reader.Stop.TheVariants as stop_is;

    ghost from_gives = { λ _ stop. stop ≡ stop_is.Memory };

    fn from(_: AllocError) -> Stop {
        Stop::Memory
    }
}

impl<T: Drop> From<AllocFailed<T>> for Stop {
    ghost use Rattle.archive_query.specs.declared.reader.Stop.TheVariants as stop_is;

    ghost from_gives = { λ _ stop. stop ≡ stop_is.Memory };

    fn from(_: AllocFailed<T>) -> Stop {
        Stop::Memory
    }
}

/// The queries of a group that wait to be joined to what follows.
#[derive(Drop)]
pub(crate) struct Chain {
    /// With an `or` behind each.
    pub(crate) any: Vec<Ask>,
    /// And then, with an `and` behind each.
    pub(crate) all: Vec<Ask>,
}

/// What is open.
#[derive(Drop)]
pub(crate) enum Level {
    Negation,
    /// A parenthesis, and what waits before it.
    Group(Chain),
}

/// What may come next.
#[derive(Drop)]
pub(crate) enum Next {
    Unit,
    TextOperator(TextField),
    Text(TextField, TextOperator),
    NumberOperator(NumberField),
    Number(NumberField, NumberOperator),
    ActOperator,
    Act,
    /// What joins this query to the next, or ends it.
    Joint(Ask),
}

/// What has been read of a query.
#[derive(Drop)]
pub(crate) struct Reader {
    alloc: Global,
    pub(crate) levels: Vec<Level>,
    pub(crate) chain: Chain,
    pub(crate) next: Next,
}

/// The conjunction of these and of the last.
#[tactic(auto, using(crate::proofs::Joining::all_joined_popped))]
fn join_all(alloc: Global, mut waiting: Vec<Ask>, last: Ask) -> Result<Ask, Memory>
    ensures { IfOk result (λ joined. query_of joined ≡ all_joined (queries_of waiting.items) (query_of last)) }
{
    let mut ask = last;
    while let Some(first) = waiting.pop() {
        ask = both(alloc, first, ask)?;
    }
    Ok(ask)
}

/// The disjunction of these and of the last.
#[tactic(auto, using(crate::proofs::Joining::any_joined_popped))]
fn join_any(alloc: Global, mut waiting: Vec<Ask>, last: Ask) -> Result<Ask, Memory>
    ensures { IfOk result (λ joined. query_of joined ≡ any_joined (queries_of waiting.items) (query_of last)) }
{
    let mut ask = last;
    while let Some(first) = waiting.pop() {
        ask = either(alloc, first, ask)?;
    }
    Ok(ask)
}

/// Takes the innermost level off, if it is a negation.
fn take_negation(levels: &mut Vec<Level>) -> bool
    ensures fewer { IsTrue result → vec_len levels.new < vec_len levels.old }
    ensures taken { TakesNegation (levels_of levels.old.items) (levels_of levels.new.items) result }
{
    if let Some(Level::Negation) = levels.last() {
        levels.pop();
        return true;
    }
    false
}

/// What a field wants behind it, if the word is one.
#[tactic(auto, unfolding(crate::specs::Reading::field_wants))]
fn behind_field(word: &str) -> Option<Next>
    ensures { option_map wants_of result ≡ field_wants word.now }
{
    if let Some(field) = text_field_of(word) {
        return Some(Next::TextOperator(field));
    }
    if let Some(field) = number_field_of(word) {
        return Some(Next::NumberOperator(field));
    }
    if word == "act" {
        return Some(Next::ActOperator);
    }
    None
}

/// The test of a text that the value makes, if it is a text.
fn text_test(
    alloc: Global,
    field: TextField,
    operator: TextOperator,
    value: &str,
) -> Result<Option<Test>, Memory>
    ensures { IfOk result (λ test. option_map test_of test ≡ option_map (Text field operator) (text_said value.now)) }
{
    match text_of(alloc, value)? {
        Some(value) => Ok(Some(Test::Text(TextTest::new(alloc, field, operator, value)?))),
        None => Ok(None),
    }
}

impl Chain {
    /// Nothing waits.
    fn new(alloc: Global) -> Chain
        ensures { waits_of result ≡ nothing_waits }
    {
        Chain {
            any: Vec::new(alloc),
            all: Vec::new(alloc),
        }
    }

    /// The group that ends with this query.
    fn closed(self, alloc: Global, last: Ask) -> Result<Ask, Memory>
        ensures { IfOk result (λ ask. query_of ask ≡ closed (waits_of self) (query_of last)) }
    {
        let Chain { any, all } = self;
        let ask = join_all(alloc, all, last)?;
        join_any(alloc, any, ask)
    }
}

impl Reader {
    /// Nothing is read.
    pub(crate) fn new(alloc: Global) -> Reader
        ensures { state_of result ≡ start }
    {
        Reader {
            alloc,
            levels: Vec::new(alloc),
            chain: Chain::new(alloc),
            next: Next::Unit,
        }
    }

    /// Reads a token. Behind an error the reader is of no use.
    pub(crate) fn step(&mut self, word: &str) -> Result<(), Stop>
        ensures { Steps result (state_of self.new) (step 32 (state_of self.old) word.now) }
    {
        match mem::replace(&mut self.next, Next::Unit) {
            Next::Unit => self.unit(word),
            Next::TextOperator(field) => {
                self.want(text_operator_of(word).map(|operator| Next::Text(field, operator)))
            }
            Next::Text(field, operator) => {
                let test = text_test(self.alloc, field, operator, word)?;
                self.test(test)
            }
            Next::NumberOperator(field) => {
                self.want(number_operator_of(word).map(|operator| Next::Number(field, operator)))
            }
            Next::Number(field, operator) => self.test(number_of(word).map(|value| Test::Number {
                field,
                operator,
                value,
            })),
            Next::ActOperator => self.want((word == "is").then_some(Next::Act)),
            Next::Act => self.test(act_of(word).map(Test::Act)),
            Next::Joint(ask) => self.joint(ask, word),
        }
    }

    /// What is read, if it is a query.
    pub(crate) fn end(self) -> Result<Ask, Stop>
        ensures { Ends result (spec.ended (levels_of self.levels.items) (waits_of self.chain) (wants_of self.next)) }
    {
        let Reader {
            alloc,
            levels,
            chain,
            next,
        } = self;
        match next {
            Next::Joint(ask) if levels.is_empty() => Ok(chain.closed(alloc, ask)?),
            _ => Err(Stop::Misplaced),
        }
    }

    /// Goes on to what is wanted, if the token is what may stand here.
    fn want(&mut self, next: Option<Next>) -> Result<(), Stop>
        ensures { Steps result (state_of self.new) (wanting (levels_of self.old.levels.items) (waits_of self.old.chain) (option_map wants_of next)) }
    {
        match next {
            Some(next) => {
                self.next = next;
                Ok(())
            }
            None => Err(Stop::Misplaced),
        }
    }

    /// Puts a test, if the token is its value.
    fn test(&mut self, test: Option<Test>) -> Result<(), Stop>
        ensures { Steps result (state_of self.new) (putting (levels_of self.old.levels.items) (waits_of self.old.chain) (option_map test_of test)) }
    {
        match test {
            Some(test) => Ok(self.put(Ask::Test(test))?),
            None => Err(Stop::Misplaced),
        }
    }

    /// Puts a unit, which ends the negations before it.
    fn put(&mut self, unit: Ask) -> Result<(), Memory>
        ensures { OnOk result (state_of self.new ≡ put (levels_of self.old.levels.items) (waits_of self.old.chain) (query_of unit)) }
    {
        let mut ask = unit;
        while take_negation(&mut self.levels) {
            ask = negated(self.alloc, ask)?;
        }
        self.next = Next::Joint(ask);
        Ok(())
    }

    /// Reads the first token of a unit.
    #[tactic(auto, unfolding(crate::specs::Reading::unit_step))]
    fn unit(&mut self, word: &str) -> Result<(), Stop>
        requires { wants_of self.old.next ≡ spec.AUnit }
        ensures { Steps result (state_of self.new) (unit_step 32 (levels_of self.old.levels.items) (waits_of self.old.chain) word.now) }
    {
        match word {
            "(" => self.open_group(),
            "not" => self.open_negation(),
            _ => self.want(behind_field(word)),
        }
    }

    /// Opens a parenthesis.
    fn open_group(&mut self) -> Result<(), Stop>
        requires { wants_of self.old.next ≡ spec.AUnit }
        ensures { Steps result (state_of self.new) (opening 32 (levels_of self.old.levels.items) (Group (waits_of self.old.chain)) nothing_waits) }
    {
        if self.levels.len() >= MOST_LEVELS {
            return Err(Stop::TooDeep);
        }
        let outer = mem::replace(&mut self.chain, Chain::new(self.alloc));
        self.levels.push(Level::Group(outer))?;
        Ok(())
    }

    /// Opens a negation.
    fn open_negation(&mut self) -> Result<(), Stop>
        requires { wants_of self.old.next ≡ spec.AUnit }
        ensures { Steps result (state_of self.new) (opening 32 (levels_of self.old.levels.items) Negation (waits_of self.old.chain)) }
    {
        if self.levels.len() >= MOST_LEVELS {
            return Err(Stop::TooDeep);
        }
        self.levels.push(Level::Negation)?;
        Ok(())
    }

    /// Reads what stands behind a query.
    #[tactic(auto, unfolding(crate::specs::Reading::joint_step))]
    fn joint(&mut self, ask: Ask, word: &str) -> Result<(), Stop>
        requires { wants_of self.old.next ≡ spec.AUnit }
        ensures { Steps result (state_of self.new) (joint_step (levels_of self.old.levels.items) (waits_of self.old.chain) (query_of ask) word.now) }
    {
        match word {
            "and" => {
                self.chain.all.push(ask)?;
                Ok(())
            }
            "or" => {
                let all = mem::replace(&mut self.chain.all, Vec::new(self.alloc));
                let ask = join_all(self.alloc, all, ask)?;
                self.chain.any.push(ask)?;
                Ok(())
            }
            ")" => self.close(ask),
            _ => Err(Stop::Misplaced),
        }
    }

    /// Closes a parenthesis.
    fn close(&mut self, last: Ask) -> Result<(), Stop>
        ensures { Steps result (state_of self.new) (closing (levels_of self.old.levels.items) (waits_of self.old.chain) (query_of last)) }
    {
        match self.levels.pop() {
            Some(Level::Group(outer)) => {
                let inner = mem::replace(&mut self.chain, outer);
                let ask = inner.closed(self.alloc, last)?;
                Ok(self.put(ask)?)
            }
            _ => Err(Stop::Misplaced),
        }
    }
}
