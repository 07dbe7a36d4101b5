//! Parts of a production, in order, and the phrases in them.

ghost use Rattle.std.specs.Prelude.{◌≡◌, IfOk};
ghost use Rattle.spec_grammar.specs.Phrase as spec;

use crate::phrase::{Below, Phrase};
use snap_ast::Items;
use std::alloc::{AllocError, Global};
use std::marker::Model;

/// Parts of a production, in order, and the phrases in them.
#[derive(Drop)]
pub struct Row<F> {
    items: Vec<F>,
    below: Below,
}

impl<F> Model for Row<F> {
    ghost use Rattle.spec_grammar.specs.Phrase.{Row};
    ghost use Rattle.snap_phrase.specs.Codes.{row_code};

    ghost Value = { Row F };

    ghost coded = { row_code F.code };

    ghost view = { λ r. record { items = r.items.items; below = r.below } };
}

/// A phrase that may be there: its number, and what stands below the node with it.
#[derive(Drop)]
pub struct Optional {
    number: Option<u32>,
    below: Below,
}

impl Model for Optional {
    ghost use Rattle.spec_grammar.specs.Phrase.{Optional};
    ghost use Rattle.snap_phrase.specs.Codes.{optional_code};

    ghost Value = { Optional };

    ghost coded = { optional_code };

    ghost view = { λ o. record { number = o.number; below = o.below } };
}

impl<F: Drop> Row<F> {
    /// No part, above phrases.
    pub fn on(alloc: Global, below: Below) -> Row<F>
        ensures { result ≡ spec.row_on below }
    {
        Row {
            items: Vec::new(alloc),
            below,
        }
    }

    /// The number of the next phrase.
    pub fn number(&self) -> Result<u32, AllocError>
        ensures { IfOk result (λ number. number ≡ spec.number self.now.below) }
    {
        self.below.number()
    }

    /// One more part, which holds no phrase.
    pub fn with_part(self, part: F) -> Result<Row<F>, AllocError>
        ensures { IfOk result (λ row. row ≡ spec.with_part self part) }
    {
        let Row { mut items, below } = self;
        items.push(part)?;
        Ok(Row { items, below })
    }

    /// One more part, and the phrase in it.
    pub fn with_phrase(self, part: F, phrase: Phrase) -> Result<Row<F>, AllocError>
        ensures { IfOk result (λ row. row ≡ spec.with_phrase self part phrase) }
    {
        let Row { mut items, below } = self;
        items.push(part)?;
        let below = below.with(phrase)?;
        Ok(Row { items, below })
    }

    /// The same parts above one more phrase.
    pub fn above_phrase(self, phrase: Phrase) -> Result<Row<F>, AllocError>
        ensures { IfOk result (λ row. row ≡ record { items = self.items; below = spec.◌▸◌ self.below phrase }) }
    {
        let Row { items, below } = self;
        let below = below.with(phrase)?;
        Ok(Row { items, below })
    }

    /// The parts, and what stands below the node with them.
    pub fn into_parts(self) -> (Items<F>, Below)
        ensures { result ≡ (self.items, self.below) }
    {
        let Row { items, below } = self;
        (Items::from_vec(items), below)
    }
}

impl Row<u32> {
    /// One more child.
    pub fn with_child(self, phrase: Phrase) -> Result<Row<u32>, AllocError>
        ensures { IfOk result (λ row. row ≡ spec.with_child self phrase) }
    {
        let number = self.number()?;
        self.with_phrase(number, phrase)
    }
}

impl Optional {
    /// None.
    pub fn absent(below: Below) -> Optional
        ensures { result ≡ spec.absent below }
    {
        Optional {
            number: None,
            below,
        }
    }

    /// One.
    pub fn present(below: Below, phrase: Phrase) -> Result<Optional, AllocError>
        ensures { IfOk result (λ optional. optional ≡ spec.present below phrase) }
    {
        let (number, below) = below.next(phrase)?;
        Ok(Optional {
            number: Some(number),
            below,
        })
    }

    /// Its number, and what stands below the node with it.
    pub fn into_parts(self) -> (Option<u32>, Below)
        ensures { result ≡ (self.number, self.below) }
    {
        let Optional { number, below } = self;
        (number, below)
    }
}
