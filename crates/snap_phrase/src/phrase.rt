//! Phrases as nodes.

ghost use Rattle.std.specs.Prelude.{◌≡◌, ◌≤◌, length, IfOk};
ghost use Rattle.spec_grammar.specs.Phrase as spec;
ghost use Rattle.spec_grammar.specs.Phrase.{◌▸◌};
ghost use Rattle.spec_grammar.specs.Nodes.{is_access_form, is_reference, name_of, name_of_form, takes};

use snap_ast::{Form, Named, TreeNode, UnaryOperator};
use snap_text::Units;
use std::alloc::{AllocError, Global};
use std::marker::Model;

/// The nodes of a phrase in preorder, the first of which is that of the phrase.
#[derive(Drop)]
pub struct Phrase {
    nodes: Vec<TreeNode>,
    height: usize,
    is_wrapped: bool,
    at: u32,
}

impl Model for Phrase {
    ghost use Rattle.std.specs.Prelude.{◌≤◌, length};
    ghost use Rattle.spec_grammar.specs.Phrase.{Phrase};

    ghost Value = { Phrase };

    ghost view = { λ p. record { nodes = p.nodes.items; height = p.height; is_wrapped = p.is_wrapped; at = p.at } };

    ghost invariant = { λ p. p.height ≤ length p.nodes.items };
}

/// The phrases that stand below a node, so far.
#[derive(Drop)]
pub struct Below {
    nodes: Vec<TreeNode>,
    height: usize,
}

impl Model for Below {
    ghost use Rattle.std.specs.Prelude.{◌≤◌, length};
    ghost use Rattle.spec_grammar.specs.Phrase.{Below};

    ghost Value = { Below };

    ghost view = { λ b. record { nodes = b.nodes.items; height = b.height } };

    ghost invariant = { λ b. b.height ≤ length b.nodes.items };
}

/// The name that a node is.
fn name_in(alloc: Global, node: &TreeNode) -> Result<Option<Named>, AllocError>
    ensures { IfOk result (λ name. name ≡ name_of_form node.now.at node.now.form) }
{
    match &node.form {
        Form::Name { name } => Ok(Some(Named {
            name: Units::from_vec(Vec::from_slice(alloc, name.units())?),
            at: node.at,
        })),
        _ => Ok(None),
    }
}

/// The node is a member or an index.
fn is_access(form: &Form) -> bool
    ensures { result ≡ is_access_form form.now }
{
    match form {
        Form::Member { .. } | Form::Index { .. } => true,
        _ => false,
    }
}

impl Phrase {
    /// The place of its first token.
    pub fn at(&self) -> u32
        ensures { result ≡ self.now.at }
    {
        self.at
    }

    /// How many nodes stand above one another at most.
    pub fn height(&self) -> usize
        ensures { result ≡ self.now.height }
    {
        self.height
    }

    /// It stands in parentheses.
    pub fn is_wrapped(&self) -> bool
        ensures { result ≡ self.now.is_wrapped }
    {
        self.is_wrapped
    }

    /// The name that it is.
    #[tactic(auto, unfolding(spec_grammar::specs::Nodes::name_of))]
    pub fn name(&self, alloc: Global) -> Result<Option<Named>, AllocError>
        ensures { IfOk result (λ name. name ≡ name_of self.now) }
    {
        match self.nodes.as_slice() {
            [] => Ok(None),
            [first, ..] => name_in(alloc, first),
        }
    }

    /// It is a Call that ends in `.` or `[ ]`, without parentheses round it.
    #[tactic(auto, unfolding(spec_grammar::specs::Nodes::is_reference))]
    pub fn is_reference(&self) -> bool
        ensures { result ≡ is_reference self.now }
    {
        if self.is_wrapped {
            return false;
        }
        match self.nodes.as_slice() {
            [] => false,
            [first, ..] => is_access(&first.form),
        }
    }

    /// An operator may stand before it.
    #[tactic(auto, unfolding(spec_grammar::specs::Nodes::takes))]
    pub fn is_taken_by(&self, operator: UnaryOperator) -> bool
        ensures { result ≡ takes operator self.now }
    {
        match operator {
            UnaryOperator::Delete => self.is_reference(),
            _ => true,
        }
    }

    /// The same in parentheses, the first of which stands at a place.
    pub fn wrapped(self, at: u32) -> Phrase
        ensures { result ≡ spec.wrapped at self }
    {
        let Phrase { nodes, height, .. } = self;
        Phrase {
            nodes,
            height,
            is_wrapped: true,
            at,
        }
    }

    /// What stands below a node with this phrase alone.
    pub fn under(self) -> Below
        ensures { result ≡ spec.under self }
    {
        let Phrase { nodes, height, .. } = self;
        Below { nodes, height }
    }
}

impl Below {
    /// Nothing yet.
    pub fn new(alloc: Global) -> Below
        ensures { result ≡ spec.nothing }
    {
        Below {
            nodes: Vec::new(alloc),
            height: 0,
        }
    }

    /// The number of the next phrase, or want of memory where a table has no number for it.
    pub fn number(&self) -> Result<u32, AllocError>
        ensures { IfOk result (λ number. number ≡ spec.number self.now) }
    {
        match u32::try_from(self.nodes.len()) {
            Ok(number) => Ok(number),
            Err(_) => Err(AllocError),
        }
    }

    /// These phrases and one more.
    pub fn with(self, phrase: Phrase) -> Result<Below, AllocError>
        ensures { IfOk result (λ below. below ≡ (self ▸ phrase)) }
    {
        let Below {
            mut nodes,
            height: known,
        } = self;
        let Phrase {
            nodes: mut more,
            height,
            ..
        } = phrase;
        nodes.append(&mut more)?;
        Ok(Below {
            nodes,
            height: known.max(height),
        })
    }

    /// One phrase more, and its number.
    pub fn next(self, phrase: Phrase) -> Result<(u32, Below), AllocError>
        ensures { IfOk result (λ next. next ≡ (spec.number self, (self ▸ phrase))) }
    {
        let number = self.number()?;
        let below = self.with(phrase)?;
        Ok((number, below))
    }

    /// Their nodes.
    pub fn into_nodes(self) -> Vec<TreeNode>
        ensures { result.items ≡ self.nodes }
    {
        let Below { nodes, .. } = self;
        nodes
    }

    /// A node at a place, with these phrases below it.
    pub fn above(self, at: u32, form: Form) -> Result<Phrase, AllocError>
        ensures { IfOk result (λ phrase. phrase ≡ spec.above at form self) }
    {
        let Below { mut nodes, height } = self;
        nodes.insert(0, TreeNode { form, at })?;
        Ok(Phrase {
            nodes,
            height: height + 1,
            is_wrapped: false,
            at,
        })
    }
}
