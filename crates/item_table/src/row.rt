//! What is kept of an item.
ghost use Rattle.std.specs.Prelude.{◌≡◌, ◌<◌, ◌++◌, [], ◌∷◌, vec_len, vec_capacity, unwrap_or};
ghost use Rattle.std.specs.Option.{option_copied};
ghost use Rattle.item_table.specs.Rows.{row_at, changed, set_to};

use crate::shared::SharedStory;
use news_types::{Moment, State};

/// What is kept of an item. Its story may be owned by a publication too.
#[derive(Drop)]
pub(crate) struct Row {
    pub(crate) state: State,
    pub(crate) version: u32,
    pub(crate) story: SharedStory,
    /// When it was made where it came from, or 0.
    pub(crate) created: Moment,
}

/// What is kept of the item of that number, from 1.
pub(crate) fn row_of(rows: &[Row], item: u32) -> Option<&Row>
    ensures { option_copied result ≡ row_at rows.now item }
{
    if item == 0 {
        return None;
    }
    rows.get(item as usize - 1)
}

/// What an item is set to: its story and its making stay where none is given.
#[derive(Drop)]
pub struct Setting {
    pub state: State,
    pub version: u32,
    pub story: Option<SharedStory>,
    pub created: Option<Moment>,
}

/// Sets an item. It takes no memory.
pub(crate) fn set(rows: &mut Vec<Row>, item: u32, to: Setting)
    ensures { rows.new.items ≡ changed item (set_to to) rows.old.items }
{
    if item == 0 {
        return;
    }
    if let Some(row) = rows.get_mut(item as usize - 1) {
        set_row(row, to);
    }
}

/// Sets a row.
fn set_row(row: &mut Row, to: Setting)
    ensures { row.new ≡ set_to to row.old }
{
    let Setting {
        state,
        version,
        story,
        created,
    } = to;
    row.state = state;
    row.version = version;
    put_story(&mut row.story, story);
    row.created = created.unwrap_or(row.created);
}

/// Puts a story in the place of another, if one is given.
fn put_story(kept: &mut SharedStory, story: Option<SharedStory>)
    ensures { kept.new ≡ unwrap_or story kept.old }
{
    if let Some(story) = story {
        *kept = story;
    }
}
