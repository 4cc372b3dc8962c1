//! Patterns as data: a literal is kept as the bytes of its name, any other pattern as its
//! components.
ghost use Rattle.std.specs.Prelude.{◌≡◌, IfOk, IfErr};
ghost use Rattle.tm_word.specs.Prelude.{IsNoLiteral, literal};

use crate::{Component, Word};
use std::alloc::Global;
use std::marker::Model;
use tm_list::{Copied, NoMemory, Same, Seq};

/// How a pattern is kept.
#[derive(Drop)]
enum Form {
    /// As the bytes of the one name that it matches.
    Literal(Word),
    /// As its components.
    Components(Seq<Component>),
}

/// A pattern of names. Contracts see it as its components between the slashes. The literal of a
/// name is kept as the bytes of this name, so that it is copied, compared, matched and printed as
/// they are.
#[derive(Drop)]
pub struct Pattern {
    form: Form,
}

impl Model for Pattern {
    ghost use Rattle.std.specs.Prelude.{List};
    ghost use Rattle.tm_word.specs.declared.Component.{Component};
    ghost use Rattle.tm_word.specs.Prelude.{IsKept, components_of};

    ghost Value = { List Component };

    ghost view = { λ p. components_of p.form };

    ghost invariant = { λ p. IsKept p.form };
}

impl Pattern {
    /// The literal of a name: the pattern of its own bytes, which matches this name alone. Takes no
    /// memory.
    #[tactic(auto, unfolding(crate::specs::Patterns::components_of, crate::specs::Patterns::IsKept))]
    pub fn literal(name: Word) -> Pattern
        ensures { result ≡ literal name }
    {
        Pattern {
            form: Form::Literal(name),
        }
    }

    /// The pattern of components that are no name's literal. Takes no memory.
    #[tactic(auto, unfolding(crate::specs::Patterns::components_of, crate::specs::Patterns::IsKept))]
    pub fn of_components(components: Seq<Component>) -> Pattern
        requires { IsNoLiteral components }
        ensures { result ≡ components }
    {
        Pattern {
            form: Form::Components(components),
        }
    }

    /// Lends the name whose literal it is; as an error, the components of a pattern that is no
    /// name's literal.
    #[tactic(auto, unfolding(crate::specs::Patterns::components_of, crate::specs::Patterns::IsKept))]
    pub fn name(&self) -> Result<&Word, &[Component]>
        ensures name { IfOk result (λ name. self.now ≡ literal name.now) }
        ensures components { IfErr result (λ components. components.now ≡ self.now) }
        ensures no_literal { IfErr result (λ components. IsNoLiteral components.now) }
    {
        match &self.form {
            Form::Literal(name) => Ok(name),
            Form::Components(components) => Err(components.as_slice()),
        }
    }
}

impl Copied for Pattern {
    fn copy(&self, alloc: Global) -> Result<Self, NoMemory> {
        match &self.form {
            Form::Literal(name) => Ok(Pattern {
                form: Form::Literal(name.copy(alloc)?),
            }),
            Form::Components(components) => Ok(Pattern {
                form: Form::Components(components.copy(alloc)?),
            }),
        }
    }
}

impl Same for Pattern {
    #[tactic(auto, unfolding(crate::specs::Patterns::components_of, crate::specs::Patterns::IsKept))]
    fn same(&self, other: &Self) -> bool {
        match (&self.form, &other.form) {
            (Form::Literal(name), Form::Literal(other_name)) => name.same(other_name),
            (Form::Literal(_), Form::Components(_)) => false,
            (Form::Components(_), Form::Literal(_)) => false,
            (Form::Components(components), Form::Components(others)) => components.same(others),
        }
    }
}
