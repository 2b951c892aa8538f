//! The properties of lines, and what is wrong with one.
ghost use Rattle.desk_lines.specs.declared.property.LineFault.TheVariants as fault_is;
ghost use Rattle.desk_lines.specs.Properties.{property_word};
ghost use Rattle.std.specs.Prelude.{◌≡◌};

use news_types::Memory;
use std::alloc::{AllocError, AllocFailed};

/// A property that a line may have; `Line` stands for the line itself.
#[derive(Clone, Copy, Debug, PartialEq, Eq)]
pub enum LineProperty {
    Line,
    By,
    Number,
    Do,
    Ask,
    Receipt,
    User,
    Privileges,
    Desk,
    Stage,
    Member,
    Condition,
    Field,
    Op,
    Values,
    Filter,
    Statements,
    Conditions,
    Filters,
    On,
    Product,
    How,
    Subscriber,
    Format,
    Products,
    Active,
    Off,
    Lag,
    Scheme,
    Rules,
    Days,
    From,
    To,
    Zone,
    Fetch,
    Publish,
    Exit,
    Provider,
    Story,
    Kind,
    Urgency,
    Slugline,
    Headline,
    Byline,
    Language,
    Category,
    Body,
    Html,
    Copyright,
    Targets,
    Item,
    Session,
    Schedule,
    Embargo,
    Note,
    After,
    N,
    Page,
    Query,
    Members,
    Role,
    Below,
    State,
    Publication,
    Of,
}

/// Why a line is not read.
#[derive(Clone, Copy, Debug, PartialEq, Eq)]
pub enum LineFault {
    /// The first property that is missing, of the wrong type or not of its form.
    Bad { property: LineProperty },
    /// There is no memory for it.
    Memory,
}

impl From<LineProperty> for LineFault {
    ghost from_gives = { λ property fault. fault ≡ fault_is.Bad property };

    fn from(property: LineProperty) -> LineFault {
        LineFault::Bad { property }
    }
}

impl From<Memory> for LineFault {
    ghost from_gives = { λ _ fault. fault ≡ fault_is.Memory };

    fn from(_: Memory) -> LineFault {
        LineFault::Memory
    }
}

impl From<AllocError> for LineFault {
    ghost from_gives = { λ _ fault. fault ≡ fault_is.Memory };

    fn from(_: AllocError) -> LineFault {
        LineFault::Memory
    }
}

impl<T: Drop> From<AllocFailed<T>> for LineFault {
    ghost from_gives = { λ _ fault. fault ≡ fault_is.Memory };

    fn from(_: AllocFailed<T>) -> LineFault {
        LineFault::Memory
    }
}

/// A property as it is written.
#[tactic(auto, unfolding(crate::specs::Properties::property_word))]
pub fn word_of_property(property: LineProperty) -> &'static str
    ensures { result.now ≡ property_word property }
{
    match property {
        LineProperty::Line => "line",
        LineProperty::By => "by",
        LineProperty::Number => "number",
        LineProperty::Do => "do",
        LineProperty::Ask => "ask",
        LineProperty::Receipt => "receipt",
        LineProperty::User => "user",
        LineProperty::Privileges => "privileges",
        LineProperty::Desk => "desk",
        LineProperty::Stage => "stage",
        LineProperty::Member => "member",
        LineProperty::Condition => "condition",
        LineProperty::Field => "field",
        LineProperty::Op => "op",
        LineProperty::Values => "values",
        LineProperty::Filter => "filter",
        LineProperty::Statements => "statements",
        LineProperty::Conditions => "conditions",
        LineProperty::Filters => "filters",
        LineProperty::On => "on",
        LineProperty::Product => "product",
        LineProperty::How => "how",
        LineProperty::Subscriber => "subscriber",
        LineProperty::Format => "format",
        LineProperty::Products => "products",
        LineProperty::Active => "active",
        LineProperty::Off => "off",
        LineProperty::Lag => "lag",
        LineProperty::Scheme => "scheme",
        LineProperty::Rules => "rules",
        LineProperty::Days => "days",
        LineProperty::From => "from",
        LineProperty::To => "to",
        LineProperty::Zone => "zone",
        LineProperty::Fetch => "fetch",
        LineProperty::Publish => "publish",
        LineProperty::Exit => "exit",
        LineProperty::Provider => "provider",
        LineProperty::Story => "story",
        LineProperty::Kind => "kind",
        LineProperty::Urgency => "urgency",
        LineProperty::Slugline => "slugline",
        LineProperty::Headline => "headline",
        LineProperty::Byline => "byline",
        LineProperty::Language => "language",
        LineProperty::Category => "category",
        LineProperty::Body => "body",
        LineProperty::Html => "html",
        LineProperty::Copyright => "copyright",
        LineProperty::Targets => "targets",
        LineProperty::Item => "item",
        LineProperty::Session => "session",
        LineProperty::Schedule => "schedule",
        LineProperty::Embargo => "embargo",
        LineProperty::Note => "note",
        LineProperty::After => "after",
        LineProperty::N => "n",
        LineProperty::Page => "page",
        LineProperty::Query => "query",
        LineProperty::Members => "members",
        LineProperty::Role => "role",
        LineProperty::Below => "below",
        LineProperty::State => "state",
        LineProperty::Publication => "publication",
        LineProperty::Of => "of",
    }
}
