//! What is told of a publication that a query finds.
ghost use Rattle.std.specs.Prelude.{◌≡◌, ◌++◌, IfOk, OnOk, string_bytes};
ghost use Rattle.news_types.specs.Books.{Book};
ghost use Rattle.news_types.specs.Answers.{publication_at};
ghost use Rattle.news_types.specs.Publications.{pubs};
ghost use Rattle.news_room.specs.Stands.{Stands};
ghost use Rattle.story_tables.specs.Pages.{publication_of};
ghost use Rattle.archive_search.specs.Answers.{hit_at, hit_line, hit_of, hit_row, hits_told};

use archive_query::act_word;
use news_io::Keeper;
use news_room::Room;
use news_types::{Kind, Memory, Moment};
use publications::Published;
use release_rules::text_of_moment;
use std::alloc::{AllocError, Global};
use std::fmt::Write;
use told_objects::{Object, Shown};

/// What is told of a publication.
#[derive(Clone, Copy)]
pub(crate) struct Hit {
    pub(crate) act: Kind,
    pub(crate) item: u32,
    pub(crate) number: u32,
    pub(crate) release: Moment,
    pub(crate) version: u32,
}

impl Shown for Hit {
    ghost members = { hit_row };

    fn shown(&self, alloc: Global) -> Result<Object, AllocError> {
        let release = text_of_moment(self.release);
        Object::new(alloc)
            .text("act", act_word(self.act))?
            .number("item", u64::from(self.item))?
            .number("number", u64::from(self.number))?
            .text("release", release.as_str())?
            .number("version", u64::from(self.version))
    }
}

/// What is told of the publications of these numbers.
pub(crate) fn hits_of<K: Keeper>(
    alloc: Global,
    room: &Room<K>,
    numbers: &[u32],
) -> Result<Vec<Hit>, Memory>
    ensures { IfOk result (λ hits. (b : Book) → Stands K.keeper room.now b → hits.items ≡ hits_told (pubs b.list) numbers.now) }
{
    let mut hits = Vec::new(alloc);
    for number in numbers {
        add_hit(&mut hits, room, *number)?;
    }
    Ok(hits)
}

/// Adds what is told of the publication of that number, if there is one.
fn add_hit<K: Keeper>(hits: &mut Vec<Hit>, room: &Room<K>, number: u32) -> Result<(), Memory>
    ensures { (b : Book) → Stands K.keeper room.now b → OnOk result (hits.new.items ≡ hits.old.items ++ hit_at (publication_at number (pubs b.list))) }
{
    match room.published(number) {
        Some(published) => {
            hits.push(told_of(number, published))?;
            Ok(())
        }
        None => Ok(()),
    }
}

/// What is told of a publication that is kept.
fn told_of(number: u32, published: &Published) -> Hit
    ensures { result ≡ hit_of (publication_of number published.now) }
{
    Hit {
        act: published.kind,
        item: published.item,
        number,
        release: published.release,
        version: published.version,
    }
}

/// Appends the line of a publication: its number, item, version, act and release.
pub(crate) fn put_hit(text: &mut String, hit: &Hit) -> Result<(), AllocError>
    ensures { OnOk result (string_bytes text.new ≡ string_bytes text.old ++ hit_line hit.now) }
{
    let number = hit.number;
    let item = hit.item;
    let version = hit.version;
    let release = text_of_moment(hit.release);
    writeln!(
        text,
        "{number} {item} {version} {} {}",
        act_word(hit.act),
        release.as_str()
    )
}
