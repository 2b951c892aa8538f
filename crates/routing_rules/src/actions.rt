//! What the rules of a scheme ask for.
ghost use Rattle.std.specs.Prelude.{◌≡◌, ◌++◌, ◌∷◌, [], OnOk, if◌then◌else◌};
ghost use Rattle.news_types.specs.Routing.{asked_by, fetch_of};

use news_types::{Memory, Place, RouteAction, Rule};
use std::marker::Model;

/// What is asked for, in order.
#[derive(Drop)]
pub struct Actions {
    items: Vec<RouteAction>,
}

impl Model for Actions {
    ghost use Rattle.std.specs.Prelude.{List};
    ghost use Rattle.news_types.specs.declared.rules.RouteAction.{RouteAction};

    ghost Value = { List RouteAction };

    ghost view = { λ a. a.items.items };
}

impl Actions {
    /// These actions.
    pub(crate) fn of(items: Vec<RouteAction>) -> Actions
        ensures { result ≡ items.items }
    {
        Actions { items }
    }

    /// The actions.
    pub fn as_slice(&self) -> &[RouteAction]
        ensures { result.now ≡ self.now }
    {
        self.items.as_slice()
    }
}

/// Adds what a rule asks for: a fetch, a publish and an exit, each where the rule has it.
pub(crate) fn push_asked(actions: &mut Vec<RouteAction>, rule: &Rule) -> Result<(), Memory>
    ensures { OnOk result (actions.new.items ≡ actions.old.items ++ asked_by rule.now) }
{
    push_fetch(actions, rule.fetch)?;
    push_if(actions, rule.publish, RouteAction::Publish)?;
    push_if(actions, rule.exit, RouteAction::Exit)
}

fn push_fetch(actions: &mut Vec<RouteAction>, place: Option<Place>) -> Result<(), Memory>
    ensures { OnOk result (actions.new.items ≡ actions.old.items ++ fetch_of place) }
{
    match place {
        None => Ok(()),
        Some(place) => {
            actions.push(RouteAction::Fetch {
                desk: place.desk,
                stage: place.stage,
            })?;
            Ok(())
        }
    }
}

fn push_if(actions: &mut Vec<RouteAction>, asked: bool, action: RouteAction) -> Result<(), Memory>
    ensures { OnOk result (actions.new.items ≡ actions.old.items ++ (if asked then action ∷ [] else [])) }
{
    if asked {
        actions.push(action)?;
    }
    Ok(())
}
