//! Stories that several tables own.
ghost use Rattle.std.specs.Prelude.{◌≡◌, IfOk};

use news_types::{Memory, Story};
use std::alloc::Global;
use std::marker::Model;
use std::sync::Arc;

/// A story that several owners share. A contract sees it as the story.
#[derive(Drop)]
pub struct SharedStory {
    story: Arc<Story>,
}

impl Model for SharedStory {
    ghost use Rattle.std.specs.Arc.{arc_value};
    ghost use Rattle.news_types.specs.declared.story.Story.{Story};

    ghost Value = { Story };

    ghost view = { λ a. arc_value a.story };
}

impl SharedStory {
    /// With one owner.
    pub fn of(alloc: Global, story: Story) -> Result<SharedStory, Memory>
        ensures { IfOk result (λ shared. shared ≡ story) }
    {
        Ok(SharedStory {
            story: Arc::new(alloc, story)?,
        })
    }

    /// The same story for one more owner. Nothing is copied.
    pub fn share(&self) -> Result<SharedStory, Memory>
        ensures { IfOk result (λ shared. shared ≡ self.now) }
    {
        Ok(SharedStory {
            story: Arc::try_clone(&self.story)?,
        })
    }

    /// The story.
    pub fn as_story(&self) -> &Story
        ensures { result.now ≡ self.now }
    {
        &self.story
    }
}
