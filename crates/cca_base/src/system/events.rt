// The calls of the system that were made.
ghost use Rattle.std.specs.Prelude.{◌≡◌, List, [], ◌∷◌};
ghost use Rattle.std.specs.Borrow.{ftrue};
ghost use Rattle.cca_base.specs.Made.{Made};

use crate::system::event::Event;
use std::marker::Model;

// The calls, the last one first. Only the clause of `with` ties them to calls that were made.
#[derive(Drop)]
pub(crate) struct Events {
    pub ghost made: { List Made },
}

impl Model for Events {
    ghost also_owns = { λ _. ftrue };
}

impl Events {
    ghost use Rattle.cca_base.specs.Made.{made_of};

    pub(crate) fn new() -> Events
        ensures { result.made ≡ [] }
    {
        Events {}
    }

    pub(crate) fn with(&self, _event: &Event<'_>) -> Events
        ensures { result.made ≡ made_of _event.now ∷ self.now.made }
    {
        Events {}
    }
}
