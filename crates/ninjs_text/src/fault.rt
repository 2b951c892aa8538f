//! The properties that are read, and why an item is not read.
ghost use Rattle.ninjs_text.specs.declared.fault.NinjsFault.TheVariants as fault_is;
ghost use Rattle.std.specs.Prelude.{◌≡◌};
ghost use Rattle.ninjs_text.specs.Properties.{property_name};

use std::alloc::AllocError;

/// A property that is read; `MediaType` stands for `type`.
#[derive(Clone, Copy, Debug, PartialEq, Eq)]
pub enum Property {
    Uri,
    MediaType,
    PubStatus,
    VersionCreated,
    Embargoed,
    Urgency,
    Headline,
    Byline,
    Slugline,
    Language,
    CopyrightHolder,
    BodyText,
    BodyHtml,
}

impl Property {
    /// The property as it is written.
    pub fn name(self) -> &'static str
        ensures { result.now ≡ property_name self }
    {
        match self {
            Property::Uri => "uri",
            Property::MediaType => "type",
            Property::PubStatus => "pubstatus",
            Property::VersionCreated => "versioncreated",
            Property::Embargoed => "embargoed",
            Property::Urgency => "urgency",
            Property::Headline => "headline",
            Property::Byline => "byline",
            Property::Slugline => "slugline",
            Property::Language => "language",
            Property::CopyrightHolder => "copyrightholder",
            Property::BodyText => "body_text",
            Property::BodyHtml => "body_html",
        }
    }
}

/// Why an item is not read.
#[derive(Clone, Copy, Debug, PartialEq, Eq)]
pub enum NinjsFault {
    /// More than 4194304 bytes, not UTF-8, or not one JSON value that nests at most 127 deep.
    NotJson,
    /// A JSON value that is no object.
    NotObject,
    /// `uri` is missing, null or empty.
    NoUri,
    /// The property is there and not of its form.
    WrongType { property: Property },
    /// The property is a text of more bytes than it may have.
    TooLong { property: Property },
    /// There is no memory for it.
    Memory,
}

impl From<news_types::Memory> for NinjsFault {
    ghost from_gives = { λ _ fault. fault ≡ fault_is.Memory };

    fn from(_: news_types::Memory) -> NinjsFault {
        NinjsFault::Memory
    }
}

impl From<AllocError> for NinjsFault {
    ghost from_gives = { λ _ fault. fault ≡ fault_is.Memory };

    fn from(_: AllocError) -> NinjsFault {
        NinjsFault::Memory
    }
}
