//! Rows as clients see them, with what a store adds.
ghost use Rattle.std.specs.Prelude.{◌≡◌, IfOk, IsTrue, ◌↔◌};
ghost use Rattle.mt_model.specs.Entities.{RisingKeys};

use crate::key::Key;
use crate::props::Props;
use crate::tag::Tag;
use crate::text::NoMemory;
use std::alloc::Global;
use std::marker::Model;

/// A row: its key, its properties, and the tag of its version.
#[derive(Debug, Drop, PartialEq, Eq)]
pub struct Entity {
    pub key: Key,
    pub props: Props,
    pub tag: Tag,
}

impl Entity {
    /// The same row. The one error is want of memory.
    pub fn copy(&self, alloc: Global) -> Result<Entity, NoMemory>
        ensures { IfOk result (λ e. e ≡ self.now) }
    {
        let key = self.key.copy(alloc)?;
        let props = self.props.copy(alloc)?;
        let tag = self.tag;
        Ok(Entity { key, props, tag })
    }

    /// Whether the two rows are equal.
    pub fn same(&self, other: &Entity) -> bool
        ensures { IsTrue result ↔ (self.now ≡ other.now) }
    {
        self == other
    }
}

/// Rows with rising keys.
#[derive(Debug, Drop)]
pub struct Entities {
    items: Vec<Entity>,
}

impl Model for Entities {
    ghost use Rattle.std.specs.Prelude.{List};
    ghost use Rattle.mt_model.specs.declared.entity.Entity.{Entity};

    ghost Value = { List Entity };

    ghost use Rattle.mt_model.specs.Entities.{RisingKeys};

    ghost view = { λ e. e.items.items };

    ghost invariant = { λ e. RisingKeys e.items.items };
}

impl Entities {
    /// The list of these rows, which takes no memory.
    pub fn of(items: Vec<Entity>) -> Entities
        requires { RisingKeys items.items }
        ensures { result ≡ items.items }
    {
        Entities { items }
    }

    /// The rows, in the order of their keys.
    pub fn as_slice(&self) -> &[Entity]
        ensures value { result.now ≡ self.now }
        ensures rising { RisingKeys self.now }
    {
        self.items.as_slice()
    }
}

impl PartialEq for Entities {
    ghost use Rattle.std.specs.Cmp.{partial_equiv_from_equiv};
    ghost use Rattle.std.specs.Cmp.Lexicographic.{pointwise, lists_equiv};
    ghost use Rattle.mt_model.specs.contracts.entity.EntityPartialEq.TheImpl as entity_eq;
    ghost use Rattle.mt_model.specs.contracts.entity.EntityEq.TheImpl.Laws as entity;

    ghost eq = { pointwise (entity_eq.ghosts).eq };

    ghost laws = { partial_equiv_from_equiv (lists_equiv entity.laws-law) };

    fn eq(&self, other: &Entities) -> bool {
        self.items == other.items
    }
}

impl Eq for Entities {
    ghost use Rattle.std.specs.Cmp.Lexicographic.{lists_equiv};
    ghost use Rattle.mt_model.specs.contracts.entity.EntityEq.TheImpl.Laws as entity;

    ghost laws = { lists_equiv entity.laws-law };
}
