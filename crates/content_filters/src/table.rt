//! The table of conditions, filters and blocks.
ghost use Rattle.std.specs.Prelude.{◌≡◌, ◌+◌, ℕ, List, [], Option, Some, None, IfOk, map, length, option_map, slice_get, if◌then◌else◌};
ghost use Rattle.std.specs.List.{list_any, list_all};
ghost use Rattle.std.specs.Option.{option_copied};
ghost use Rattle.news_types.specs.Names.{Bytes};
ghost use Rattle.news_types.specs.History.{History};
ghost use Rattle.news_types.specs.Conditions.{Condition, condition, is_true_of};
ghost use Rattle.news_types.specs.Filters.{Filter, filters, has_filter, is_filter, older, holds, matches};
ghost use Rattle.news_types.specs.declared.story.Story.{Story};
ghost use Rattle.content_filters.specs.Kept.{condition_of, kept_of, filter_named, is_block, verdict_at, AreBlocks};
ghost use Rattle.content_filters.specs.Keeps.{Keeps, AreVerdicts, judged, blocks_by, matching_blocks, last_beside};
ghost use Rattle.content_filters.specs.Reasons.{KeepsFacts};
ghost use Rattle.feed_reasons.specs.Verdicts.{block};

use crate::condition::KeptCondition;
use crate::places::{number_at, place_of, verdict_at};
use crate::verdicts::Verdicts;
use news_types::{Memory, Name, Statement, Statements, Story};
use std::alloc::Global;
use std::collections::HashMap;

/// A filter as the table keeps it.
#[derive(Drop)]
pub struct KeptFilter {
    pub(crate) name: Name,
    pub(crate) statements: Statements,
}

impl KeptFilter {
    /// The filter's name.
    pub fn name(&self) -> Name
        ensures { result ≡ self.now.name }
    {
        self.name
    }

    /// The statements, one of which has to hold.
    pub fn statements(&self) -> &[Statement]
        ensures { result.now ≡ self.now.statements }
    {
        self.statements.as_slice()
    }
}

/// Conditions, filters and blocks.
///
/// Conditions and filters stand in the order of their adding, so that one pass from the oldest filter to the
/// newest knows each filter that a statement may name.
#[derive(Drop)]
pub struct Filters {
    pub(crate) alloc: Global,
    pub(crate) conditions: Vec<KeptCondition>,
    pub(crate) condition_places: HashMap<Name, usize>,
    pub(crate) filters: Vec<KeptFilter>,
    pub(crate) filter_places: HashMap<Name, usize>,
    pub(crate) blocks: Vec<Name>,
}

impl Filters {
    /// With nothing in it.
    pub fn new(alloc: Global) -> Result<Filters, Memory>
        ensures { IfOk result (λ filters. KeepsFacts filters []) }
    {
        Ok(Filters {
            alloc,
            conditions: Vec::new(alloc),
            condition_places: HashMap::new(alloc),
            filters: Vec::new(alloc),
            filter_places: HashMap::new(alloc),
            blocks: Vec::new(alloc),
        })
    }

    /// Where its memory comes from.
    pub fn allocator(&self) -> Global
        ensures { result ≡ self.now.alloc }
    {
        self.alloc
    }

    /// Whether the filter is there. It takes no memory.
    pub fn has(&self, filter: &Name) -> bool
        ensures { (h : History) → KeepsFacts self.now h → result ≡ is_filter h filter.now }
    {
        self.has_filter(filter)
    }

    /// The condition of that name, if it is there. It takes no memory.
    pub fn condition(&self, name: &Name) -> Option<&KeptCondition>
        ensures { (h : History) → KeepsFacts self.now h
            → option_map condition_of (option_copied result) ≡ condition h name.now }
    {
        let place = place_of(&self.condition_places, name)?;
        self.conditions.get(place)
    }

    /// The filter of that name, if it is there. It takes no memory.
    pub fn filter(&self, name: &Name) -> Option<&KeptFilter>
        ensures { (h : History) → KeepsFacts self.now h
            → option_copied result ≡ option_map kept_of (filter_named name.now (filters h)) }
    {
        let place = place_of(&self.filter_places, name)?;
        filter_at(self.filters.as_slice(), place)
    }

    /// The place of the filter among all, where the oldest has 1, if it is there. It takes no memory.
    pub fn filter_age(&self, name: &Name) -> Option<u32>
        ensures { (h : History) → KeepsFacts self.now h
            → result ≡ (if is_filter h name.now then Some (length (older name.now (filters h)) + 1) else None) }
    {
        let place = place_of(&self.filter_places, name)?;
        number_at(place)
    }

    /// Whether the filter is there and a global block. It takes no memory.
    pub fn is_block(&self, name: &Name) -> bool
        ensures { (h : History) → KeepsFacts self.now h → result ≡ is_block (filters h) name.now }
    {
        name.is_among(self.blocks.as_slice())
    }

    /// Whether the filter is there.
    pub(crate) fn has_filter(&self, filter: &Name) -> bool
        ensures { (condition : Bytes → Option Condition) (count : ℕ) (fs : List Filter) → Keeps self.now condition count fs → result ≡ has_filter filter.now fs }
    {
        place_of(&self.filter_places, filter).is_some()
    }

    /// The global blocks, in byte order. It takes no memory.
    pub fn blocks(&self) -> &[Name]
        ensures { (h : History) → KeepsFacts self.now h → AreBlocks (filters h) result.now }
    {
        self.blocks.as_slice()
    }

    /// Whether the filter matches the story: one of its statements holds, and a statement holds where all that it
    /// names match. A filter that is not there matches nothing.
    ///
    /// Who asks for many filters of one story asks for its `verdicts` once.
    pub fn matches(&self, filter: &Name, story: &Story) -> Result<bool, Memory>
        ensures { IfOk result (λ answer. (h : History) → KeepsFacts self.now h → answer ≡ matches h filter.now story.now) }
    {
        let verdicts = self.verdicts(story)?;
        Ok(self.matches_with(filter, &verdicts))
    }

    /// The truth of every condition for the story, and then of every filter in the order of age. Each field of the
    /// story is folded at most once, and each condition and each filter is judged once.
    pub fn verdicts(&self, story: &Story) -> Result<Verdicts, Memory>
        ensures { IfOk result (λ verdicts. (h : History) → KeepsFacts self.now h → AreVerdicts verdicts self.now (condition h) (filters h) story.now) }
    {
        let conditions = self.condition_verdicts(story)?;
        let filters = self.filter_verdicts(conditions.as_slice())?;
        let blocks = self.matching_blocks(filters.as_slice())?;
        Ok(Verdicts {
            conditions,
            filters,
            blocks,
        })
    }

    /// Whether the filter matches the story for which the verdicts of this table were made. It takes no memory.
    pub fn matches_with(&self, filter: &Name, verdicts: &Verdicts) -> bool
        ensures { (h : History) (story : Story) → KeepsFacts self.now h → AreVerdicts verdicts.now self.now (condition h) (filters h) story
            → result ≡ matches h filter.now story }
    {
        verdict_at(&self.filter_places, verdicts.filters.as_slice(), filter)
    }

    /// The youngest global block that is not among `off` and matches the story for which the verdicts were made. It
    /// takes no memory, and looks at those blocks alone that match.
    pub fn block(&self, verdicts: &Verdicts, off: &[Name]) -> Option<Name>
        ensures { (h : History) (story : Story) → KeepsFacts self.now h → AreVerdicts verdicts.now self.now (condition h) (filters h) story
            → result ≡ block h story off.now }
    {
        last_beside(verdicts.blocks.as_slice(), off)
    }

    /// The global blocks that match by the verdicts on the filters, the oldest first.
    fn matching_blocks(&self, verdicts: &[bool]) -> Result<Vec<Name>, Memory>
        ensures { IfOk result (λ names. names.items ≡ matching_blocks self.now verdicts.now) }
    {
        let mut names = Vec::new(self.alloc);
        for filter in self.filters.iter() {
            if self.blocks_by(verdicts, &filter.name) {
                names.push(filter.name)?;
            }
        }
        Ok(names)
    }

    /// Whether the filter matches by these verdicts, and is a global block.
    fn blocks_by(&self, verdicts: &[bool], name: &Name) -> bool
        ensures { result ≡ blocks_by self.now verdicts.now name.now }
    {
        verdict_at(&self.filter_places, verdicts, name) && name.is_among(self.blocks.as_slice())
    }

    /// The truth of every condition, in the order of age.
    fn condition_verdicts(&self, story: &Story) -> Result<Vec<bool>, Memory>
        ensures { IfOk result (λ verdicts. verdicts.items ≡ map (is_true_of story.now) (map condition_of self.now.conditions.items)) }
    {
        let mut folds = Vec::new(self.alloc);
        let mut verdicts = Vec::new(self.alloc);
        for condition in self.conditions.iter() {
            let verdict = condition.is_true(self.alloc, story, &mut folds)?;
            verdicts.push(verdict)?;
        }
        Ok(verdicts)
    }

    /// The truth of every filter, from the oldest on: each by the conditions and the filters before it.
    fn filter_verdicts(&self, conditions: &[bool]) -> Result<Vec<bool>, Memory>
        ensures { IfOk result (λ verdicts. verdicts.items ≡ judged self.now conditions.now [] self.now.filters.items) }
    {
        let mut verdicts = Vec::new(self.alloc);
        for filter in self.filters.iter() {
            let verdict = self.any_holds(
                filter.statements.as_slice(),
                conditions,
                verdicts.as_slice(),
            );
            verdicts.push(verdict)?;
        }
        Ok(verdicts)
    }

    /// Whether a statement holds, by these verdicts on conditions and on filters.
    fn any_holds(&self, statements: &[Statement], conditions: &[bool], filters: &[bool]) -> bool
        ensures { result ≡ list_any (holds (verdict_at self.now.condition_places conditions.now) (verdict_at self.now.filter_places filters.now)) statements.now }
    {
        statements
            .iter()
            .any(|statement| self.holds(statement, conditions, filters))
    }

    /// Whether all that the statement names match.
    fn holds(&self, statement: &Statement, conditions: &[bool], filters: &[bool]) -> bool
        ensures { result ≡ holds (verdict_at self.now.condition_places conditions.now) (verdict_at self.now.filter_places filters.now) statement.now }
    {
        all_match(
            &self.condition_places,
            conditions,
            statement.conditions.as_slice(),
        ) && all_match(&self.filter_places, filters, statement.filters.as_slice())
    }
}

/// The last of the names that is not among `off`.
fn last_beside(names: &[Name], off: &[Name]) -> Option<Name>
    ensures { result ≡ last_beside names.now off.now }
{
    let mut last = None;
    for name in names {
        if !name.is_among(off) {
            last = Some(*name);
        }
    }
    last
}

/// The filter at a place in the order of adding.
fn filter_at(filters: &[KeptFilter], place: usize) -> Option<&KeptFilter>
    ensures { option_copied result ≡ slice_get filters.now place }
{
    filters.get(place)
}

/// Whether the verdict at each of the names is yes.
fn all_match(places: &HashMap<Name, usize>, verdicts: &[bool], names: &[Name]) -> bool
    ensures { result ≡ list_all (verdict_at places.now verdicts.now) names.now }
{
    names.iter().all(|name| verdict_at(places, verdicts, name))
}
