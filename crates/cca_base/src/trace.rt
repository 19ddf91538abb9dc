// Calls that returned, as clauses see them. They take no memory.
ghost use Rattle.std.specs.Prelude.{◌≡◌, List, [], ◌∷◌};
ghost use Rattle.std.specs.Borrow.{ftrue};
ghost use Rattle.cca_base.specs.Given.{Given};

use std::marker::Model;

// The calls, the last one first. Only the clause of `with` ties them to calls that were made.
#[derive(Drop)]
pub(crate) struct Trace {
    pub ghost calls: { List Given },
}

impl Model for Trace {
    ghost also_owns = { λ _. ftrue };
}

// A call that returned: its name and place, the length of its buffer, and its bytes.
#[derive(Clone, Copy, Drop)]
pub(crate) struct Call<'a> {
    pub name: &'a str,
    pub at: u64,
    pub room: usize,
    pub bytes: &'a [u8],
}

impl Trace {
    ghost use Rattle.cca_base.specs.Calls.{given_of};

    pub(crate) fn new() -> Trace
        ensures { result.calls ≡ [] }
    {
        Trace {}
    }

    pub(crate) fn with(&self, _call: &Call<'_>) -> Trace
        ensures { result.calls ≡ given_of _call.now ∷ self.now.calls }
    {
        Trace {}
    }
}
