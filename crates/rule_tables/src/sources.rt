//! The table of schemes and providers.
ghost use Rattle.std.specs.Prelude.{◌≡◌, ◌+◌, ◌<◌, ℕ, List, [], Option, Some, None, IfOk, OnOk, IsTrue, is_some, option_map, if◌then◌else◌};
ghost use Rattle.std.specs.HashMap.{get, hash_map_len, spare};
ghost use Rattle.news_types.specs.Names.{Bytes, same};
ghost use Rattle.news_types.specs.declared.rules.Rule.{Rule};
ghost use Rattle.news_types.specs.declared.command.Command.{Command};
ghost use Rattle.news_types.specs.declared.command.Command.TheVariants as command;
ghost use Rattle.news_types.specs.Denial.{operand_denial};
ghost use Rattle.news_types.specs.Routing.{Provider, scheme_after, schemes_added, provider_after, providers_added, is_scheme};
ghost use Rattle.rule_tables.specs.Sources.{Keeps, IsStep, IsFor, IsAlike, HasRoomFor, HasRoom, source_of};

use news_types::{Command, Memory, Name, Scheme};
use routing_rules::Routes;
use std::alloc::Global;
use std::collections::HashMap;

/// What is kept of a provider.
#[derive(Clone, Copy)]
pub(crate) struct Source {
    pub(crate) scheme: Option<Name>,
}

/// Schemes, whose zones are read, and providers.
#[derive(Drop)]
pub(crate) struct Sources {
    pub(crate) alloc: Global,
    pub(crate) schemes: HashMap<Name, Routes>,
    pub(crate) providers: HashMap<Name, Source>,
}

/// What a change does.
#[derive(Drop)]
pub(crate) enum Step {
    AddScheme { name: Name, routes: Routes },
    AddProvider { name: Name, source: Source },
    Nothing,
}

/// A change of the table, with the memory for it taken. One that is dropped changes nothing.
#[derive(Drop)]
pub(crate) struct SourceChange {
    pub(crate) step: Step,
}

impl Sources {
    /// With nothing in it.
    pub(crate) fn new(alloc: Global) -> Sources
        ensures { Keeps result (λ _. None) 0 (λ _. None) 0 }
    {
        Sources {
            alloc,
            schemes: HashMap::new(alloc),
            providers: HashMap::new(alloc),
        }
    }

    /// Whether the scheme is there. It takes no memory.
    pub(crate) fn has_scheme(&self, name: &Name) -> bool
        ensures { result ≡ is_some (get same self.now.schemes name.now) }
    {
        self.schemes.contains_key(name)
    }

    /// Whether the provider is there. It takes no memory.
    pub(crate) fn has_provider(&self, name: &Name) -> bool
        ensures { result ≡ is_some (get same self.now.providers name.now) }
    {
        self.providers.contains_key(name)
    }

    /// Takes the memory for a command. Schemes and providers stay as they are, also where memory is wanting. A command
    /// on other things makes a change that does nothing.
    pub(crate) fn prepare(&mut self, command: &Command) -> Result<SourceChange, Memory>
        requires { operand_denial command.now ≡ None }
        ensures alike { IsAlike self.old self.new }
        ensures room { IfOk result (λ change. HasRoom self.new change) }
        ensures step { IfOk result (λ change. IsStep change.step command.now) }
    {
        let step = match command {
            Command::AddScheme { scheme, rules } => self.prepare_scheme(*scheme, rules)?,
            Command::AddProvider { provider, scheme } => self.prepare_provider(*provider, *scheme)?,
            _ => Step::Nothing,
        };
        Ok(SourceChange { step })
    }

    /// Takes the memory for one more scheme, and reads its zones.
    fn prepare_scheme(&mut self, name: Name, rules: &Scheme) -> Result<Step, Memory>
        requires { IsTrue (is_scheme rules.now) }
        ensures alike { IsAlike self.old self.new }
        ensures room { IfOk result (HasRoomFor self.new) }
        ensures step { IfOk result (λ step. IsStep step (command.AddScheme name rules.now)) }
    {
        let routes = Routes::of(self.alloc, rules.copy()?)?;
        self.schemes.reserve(1)?;
        Ok(Step::AddScheme { name, routes })
    }

    /// Takes the memory for one more provider.
    fn prepare_provider(&mut self, name: Name, scheme: Option<Name>) -> Result<Step, Memory>
        ensures alike { IsAlike self.old self.new }
        ensures room { IfOk result (HasRoomFor self.new) }
        ensures step { IfOk result (λ step. IsStep step (command.AddProvider name scheme)) }
    {
        self.providers.reserve(1)?;
        Ok(Step::AddProvider {
            name,
            source: Source { scheme },
        })
    }

    /// Makes a change. It takes no memory. Nothing may have been committed since the change was prepared.
    pub(crate) fn commit(&mut self, change: SourceChange)
        requires { HasRoom self.old change }
        ensures { (command : Command) (scheme : Bytes → Option (List Rule)) (schemes : ℕ) (provider : Bytes → Option Provider) (providers : ℕ)
            → Keeps self.old scheme schemes provider providers → IsFor change command scheme provider
            → Keeps self.new (λ name. scheme_after name command (scheme name)) (schemes + schemes_added command) (λ name. provider_after name command (provider name)) (providers + providers_added command) }
    {
        let SourceChange { step } = change;
        match step {
            Step::AddScheme { name, routes } => put_scheme(&mut self.schemes, name, routes),
            Step::AddProvider { name, source } => put_provider(&mut self.providers, name, source),
            Step::Nothing => {}
        }
    }
}

/// Adds a scheme. It takes no memory.
fn put_scheme(schemes: &mut HashMap<Name, Routes>, name: Name, routes: Routes)
    requires { 0 < spare schemes.old }
    ensures schemes { (other : Bytes) → get same schemes.new other ≡ (if same name other then Some routes else get same schemes.old other) }
    ensures len { hash_map_len schemes.new ≡ hash_map_len schemes.old + (if is_some (get same schemes.old name) then 0 else 1) }
{
    drop(schemes.insert(name, routes));
}

/// Adds a provider. It takes no memory.
fn put_provider(providers: &mut HashMap<Name, Source>, name: Name, source: Source)
    requires { 0 < spare providers.old }
    ensures providers { (other : Bytes) → get same providers.new other ≡ (if same name other then Some source else get same providers.old other) }
    ensures len { hash_map_len providers.new ≡ hash_map_len providers.old + (if is_some (get same providers.old name) then 0 else 1) }
{
    let _ = providers.insert(name, source);
}
