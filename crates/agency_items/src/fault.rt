//! The properties that are read, and why an item is not read.
ghost use Rattle.std.specs.Prelude.{◌≡◌};
ghost use Rattle.agency_items.specs.declared.fault.Refusal.TheVariants as refusal_is;
ghost use Rattle.agency_items.specs.Names.{lower_name, camel_name};

use std::alloc::AllocError;

/// A property that is read: of an item, or of an entry of one of its lists. `MediaType` stands for `type`.
#[derive(Clone, Copy, Debug, PartialEq, Eq)]
pub enum Property {
    Uri,
    Guid,
    MediaType,
    PubStatus,
    VersionCreated,
    Embargoed,
    Urgency,
    Headline,
    Headlines,
    Byline,
    Bylines,
    Slugline,
    Language,
    Service,
    Subject,
    BodyText,
    BodyHtml,
    BodyXhtml,
    Bodies,
    DescriptionText,
    Descriptions,
    CopyrightNotice,
    CopyrightHolder,
    UsageTerms,
    Value,
    Role,
    ContentType,
    Code,
    By,
    Name,
}

impl Property {
    /// The property as ninjs 1 and 2 write it, in lower case; a fault is told with it.
    pub fn name(self) -> &'static str
        ensures { result.now ≡ lower_name self }
    {
        match self {
            Property::Uri => "uri",
            Property::Guid => "guid",
            Property::MediaType => "type",
            Property::PubStatus => "pubstatus",
            Property::VersionCreated => "versioncreated",
            Property::Embargoed => "embargoed",
            Property::Urgency => "urgency",
            Property::Headline => "headline",
            Property::Headlines => "headlines",
            Property::Byline => "byline",
            Property::Bylines => "bylines",
            Property::Slugline => "slugline",
            Property::Language => "language",
            Property::Service => "service",
            Property::Subject => "subject",
            Property::BodyText => "body_text",
            Property::BodyHtml => "body_html",
            Property::BodyXhtml => "body_xhtml",
            Property::Bodies => "bodies",
            Property::DescriptionText => "description_text",
            Property::Descriptions => "descriptions",
            Property::CopyrightNotice => "copyrightnotice",
            Property::CopyrightHolder => "copyrightholder",
            Property::UsageTerms => "usageterms",
            Property::Value => "value",
            Property::Role => "role",
            Property::ContentType => "contenttype",
            Property::Code => "code",
            Property::By => "by",
            Property::Name => "name",
        }
    }

    /// The property as ninjs 3 writes it, in camel case.
    pub fn camel_name(self) -> &'static str
        ensures { result.now ≡ camel_name self }
    {
        match self {
            Property::PubStatus => "pubStatus",
            Property::VersionCreated => "versionCreated",
            Property::BodyText => "bodyText",
            Property::BodyHtml => "bodyHtml",
            Property::BodyXhtml => "bodyXhtml",
            Property::DescriptionText => "descriptionText",
            Property::CopyrightNotice => "copyrightNotice",
            Property::CopyrightHolder => "copyrightHolder",
            Property::UsageTerms => "usageTerms",
            Property::ContentType => "contentType",
            one_spelling => one_spelling.name(),
        }
    }
}

/// Why an item, or a whole input, is not read.
#[derive(Clone, Copy, Debug, PartialEq, Eq)]
pub enum ItemFault {
    /// More than 4,194,304 bytes, not UTF-8, or not one JSON value that nests at most 127 deep.
    NotJson,
    /// An input that is neither an object nor a list, or a member of a list that is no object.
    NotObject,
    /// Neither `uri` nor `guid` is there with a text that is not empty.
    NoUri,
    /// `type` is a word that is no medium, as `planning`, `event` or `component`.
    WrongKind,
    /// The property is there and not of its form.
    WrongType { property: Property },
    /// The property is a text of more bytes than it may have.
    TooLong { property: Property },
}

/// Why reading stops: a fault of the item, or want of memory.
#[derive(Clone, Copy, Debug, PartialEq, Eq)]
pub(crate) enum Refusal {
    Memory,
    Fault { fault: ItemFault },
}

impl From<ItemFault> for Refusal {
    ghost from_gives = { λ fault refusal. refusal ≡ refusal_is.Fault fault };

    fn from(fault: ItemFault) -> Refusal {
        Refusal::Fault { fault }
    }
}

impl From<news_types::Memory> for Refusal {
    ghost from_gives = { λ _ refusal. refusal ≡ refusal_is.Memory };

    fn from(_: news_types::Memory) -> Refusal {
        Refusal::Memory
    }
}

impl From<AllocError> for Refusal {
    ghost from_gives = { λ _ refusal. refusal ≡ refusal_is.Memory };

    fn from(_: AllocError) -> Refusal {
        Refusal::Memory
    }
}
