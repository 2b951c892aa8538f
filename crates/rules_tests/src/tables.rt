//! Desks, filters and products, which take the lines of a batch.
ghost use Rattle.std.specs.Prelude.{◌≡◌, IfOk, None};
ghost use Rattle.content_filters.specs.Changes.{HasRoom as HasFilterRoom};
ghost use Rattle.content_filters.specs.Reasons.{filter_operand};
ghost use Rattle.desk_rules.specs.Steps.{HasRoom as HasDeskRoom};
ghost use Rattle.products.specs.Steps.{HasRoom as HasProductRoom};

use content_filters::{FilterChange, Filters};
use desk_lines::{Asked, read_line, read_story};
use desk_rules::{DeskChange, Desks};
use news_types::{Command, Denial, Memory, Name, Story};
use products::{ProductChange, Products};
use std::alloc::Global;
use std::process::Abort;

/// The tables of a newsroom's rules, without its schemes and providers.
#[derive(Drop)]
pub(crate) struct Tables {
    alloc: Global,
    pub(crate) desks: Desks,
    pub(crate) filters: Filters,
    pub(crate) products: Products,
}

/// A change, with the memory for it taken.
#[derive(Drop)]
struct Change {
    desks: DeskChange,
    filters: FilterChange,
    products: ProductChange,
}

impl Tables {
    /// With what the empty list has.
    pub(crate) fn new(alloc: Global) -> Result<Tables, Memory> {
        Ok(Tables {
            alloc,
            desks: Desks::new(alloc)?,
            filters: Filters::new(alloc)?,
            products: Products::new(alloc)?,
        })
    }

    pub(crate) fn allocator(&self) -> Global {
        self.alloc
    }

    /// Does what a request asks for: why it is denied, if it is. What is no request is told as want of memory.
    pub(crate) fn answer(&mut self, line: &str) -> Result<Option<Denial>, Memory> {
        match asked(self.alloc, line) {
            Some((caller, command)) => self.request(caller, command),
            None => Err(Memory),
        }
    }

    fn request(&mut self, caller: Name, command: Command) -> Result<Option<Denial>, Memory> {
        let denial = self.take(&caller, &command);
        drop(command);
        denial
    }

    /// Asks each table, prepares and commits.
    fn take(&mut self, caller: &Name, command: &Command) -> Result<Option<Denial>, Memory> {
        if let Err(refusal) = self.filters.judge(command) {
            return Ok(Some(refusal.denial));
        }
        let denial = self.denied(command);
        if denial.is_none() {
            let change = self.prepare(caller, command)?;
            self.commit(change);
        }
        Ok(denial)
    }

    /// Takes the memory for a command.
    fn prepare(&mut self, caller: &Name, command: &Command) -> Result<Change, Memory>
        requires { filter_operand command.now ≡ None }
        ensures desks { IfOk result (λ change. HasDeskRoom self.new.desks change.desks) }
        ensures filters { IfOk result (λ change. HasFilterRoom self.new.filters change.filters) }
        ensures products { IfOk result (λ change. HasProductRoom self.new.products change.products) }
    {
        let desks = self.desks.prepare(caller, command)?;
        let filters = self.filters.prepare(command)?;
        let products = self.products.prepare(command)?;
        Ok(Change {
            desks,
            filters,
            products,
        })
    }

    fn commit(&mut self, change: Change)
        requires desks { HasDeskRoom self.old.desks change.desks }
        requires filters { HasFilterRoom self.old.filters change.filters }
        requires products { HasProductRoom self.old.products change.products }
    {
        let Change {
            desks,
            filters,
            products,
        } = change;
        self.desks.commit(desks);
        self.filters.commit(filters);
        self.products.commit(products);
    }

    /// Why the desks or the products deny a command, if they do.
    fn denied(&self, command: &Command) -> Option<Denial> {
        if let Some(denial) = self.desks.knows(command) {
            return Some(denial);
        }
        if let Some(denial) = self.desks.full(command) {
            return Some(denial);
        }
        self.products.judge(&self.filters, command)
    }
}

/// Who asks for what by a line, where it is a request.
pub(crate) fn asked(alloc: Global, line: &str) -> Option<(Name, Command)> {
    match read_line(alloc, line.as_bytes()) {
        Ok(asked) => request_of(asked),
        Err(_) => None,
    }
}

fn request_of(asked: Asked) -> Option<(Name, Command)> {
    match asked {
        Asked::Request {
            caller,
            number: _,
            command,
        } => Some((caller, command)),
        Asked::Query(query) => {
            drop(query);
            None
        }
        Asked::Receipt { .. } => None,
        Asked::Archive { page: _, query } => {
            drop(query);
            None
        }
        Asked::Desk(question) => {
            drop(question);
            None
        }
    }
}

/// Takes requests, one after another: the first that is not done, if there is one.
pub(crate) fn take_all(tables: &mut Tables, lines: &[&'static str]) -> Option<&'static str> {
    for line in lines {
        if !matches!(tables.answer(line), Ok(None)) {
            return Some(line);
        }
    }
    None
}

/// Tables that took these requests, or the first that was not done.
pub(crate) fn tables_of(alloc: Global, lines: &[&'static str]) -> Result<Tables, &'static str> {
    match Tables::new(alloc) {
        Ok(mut tables) => match take_all(&mut tables, lines) {
            None => Ok(tables),
            Some(line) => {
                drop(tables);
                Err(line)
            }
        },
        Err(_) => Err("no memory"),
    }
}

/// A story of its properties. What is no story is told as want of memory.
pub(crate) fn story_of(alloc: Global, object: &str) -> Result<Story, Memory> {
    match read_story(alloc, object.as_bytes()) {
        Ok(story) => Ok(story),
        Err(_) => Err(Memory),
    }
}

pub(crate) fn name(rt: &impl Abort, text: &str) -> Name {
    Name::read(text).expect(rt, "a name")
}
