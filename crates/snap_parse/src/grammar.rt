//! The productions take what reads the phrases below their nodes as a parameter, so that each is
//! proved by itself.

ghost use Rattle.snap_parse.specs.Nests.{Nests};
ghost use Rattle.snap_cursor.specs.Reads.{Reads};
ghost use Rattle.spec_grammar.specs.Read.{phrase};

use snap_cursor::{Cursor, ReadFault};
use snap_phrase::Phrase;
use spec_grammar::Start;
use std::alloc::Global;

/// What the productions read with.
#[derive(Clone, Copy)]
pub struct Grammar<F> {
    pub alloc: Global,
    /// How high the phrases below a node may be.
    pub room: u32,
    /// What reads them.
    pub phrase: F,
}

impl<F: Fn(Global, &mut Cursor<'_>, u32, Start) -> Result<Phrase, ReadFault>> Grammar<F> {
    /// A phrase below a node.
    pub fn below(&self, cursor: &mut Cursor<'_>, start: Start) -> Result<Phrase, ReadFault>
        requires { Nests self.now.room (F.pre self.now.phrase) (F.post self.now.phrase) }
        ensures { Reads (phrase self.now.room start cursor.old) result cursor.new }
    {
        (self.phrase)(self.alloc, cursor, self.room, start)
    }
}
