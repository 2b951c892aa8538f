//! What of a store has a limit.
ghost use Rattle.std.specs.Prelude.{◌≡◌, ◌≤◌};
ghost use Rattle.news_types.specs.Denial as denial;
ghost use Rattle.list_marks.specs.Limits.{all_limited, is_near, limit_of, plural, thing_of, word_of};

use desk_views::Register;

/// What of a store has one limit. The stages of a desk are limited too, but desk by desk; and the side is no part of what may be
/// added: where it is full, a list goes on and is packed no further.
#[derive(Clone, Copy, PartialEq, Eq)]
pub enum Limited {
    /// The items that were made.
    Items,
    /// The publications that were made, with those that were withdrawn.
    Publications,
    /// The bytes of the log, as if nothing were packed, which everything but a stop and a halt may use.
    Log,
    /// The things of a kind that have names.
    Things(Register),
}

impl Limited {
    /// The word for it, as it is told.
    pub fn word(self) -> &'static str
        ensures { result.now ≡ word_of self }
    {
        match self {
            Limited::Items => "items",
            Limited::Publications => "publications",
            Limited::Log => "log",
            Limited::Things(of) => plural(of),
        }
    }

    /// How much of it there may be: a number, or bytes of the log.
    pub fn limit(self) -> u64
        ensures value { result ≡ limit_of self }
        ensures few { result ≤ 1073737728 }
    {
        match self {
            Limited::Items | Limited::Publications => 262_144,
            Limited::Log => 1_073_737_728,
            Limited::Things(of) => most_things(of),
        }
    }

    /// Whether so much of it is more than 80 of 100 of its limit.
    pub(crate) fn is_near(self, used: u64) -> bool
        ensures { result ≡ is_near self used }
    {
        used.saturating_mul(100) > 80 * self.limit()
    }
}

/// All that has a limit, in the order in which it is told.
pub(crate) fn all_limited() -> [Limited; 11]
    ensures { result ≡ all_limited }
{
    [
        Limited::Items,
        Limited::Publications,
        Limited::Log,
        Limited::Things(Register::Users),
        Limited::Things(Register::Desks),
        Limited::Things(Register::Conditions),
        Limited::Things(Register::Filters),
        Limited::Things(Register::Products),
        Limited::Things(Register::Subscribers),
        Limited::Things(Register::Schemes),
        Limited::Things(Register::Providers),
    ]
}

/// The word for things of a kind.
fn plural(of: Register) -> &'static str
    ensures { result.now ≡ plural of }
{
    match of {
        Register::Users => "users",
        Register::Desks => "desks",
        Register::Conditions => "conditions",
        Register::Filters => "filters",
        Register::Products => "products",
        Register::Subscribers => "subscribers",
        Register::Schemes => "schemes",
        Register::Providers => "providers",
    }
}

/// How many things of a kind there may be.
fn most_things(of: Register) -> u64
    ensures { result ≡ denial.limit_of (thing_of of) }
{
    match of {
        Register::Users | Register::Conditions => 4096,
        Register::Filters | Register::Products => 1024,
        Register::Desks | Register::Subscribers | Register::Providers => 256,
        Register::Schemes => 64,
    }
}
