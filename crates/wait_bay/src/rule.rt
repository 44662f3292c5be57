//! The table that has the tasks of a bay: its rule, and what each step on it shows.
ghost use Rattle.std.specs.Prelude.{◌≡◌};

use atomic_table::{Play, Split, TableRule};
use cell_registry::Registry;
use derived_ops::Code;
use fiber_poll::FiberTask;
use std::marker::Model;

/// The registry, the code and the number of moves of fiber 0 that a bay names, if it names any.
#[derive(Drop)]
pub struct Names<'a> {
    pub(crate) named: Option<(&'a Registry, &'a Code, u32)>,
}

impl<'a> Model for Names<'a> {
    ghost use Rattle.std.specs.Prelude.{Option};
    ghost use Rattle.std.specs.Coded.{codes};
    ghost use Rattle.derived_ops.specs.Stored.{tree_code};
    ghost use Rattle.wait_bay.specs.Names.{Named, named_of};

    ghost Value = { Option Named };

    ghost coded = { Prim.hlevel (codes, tree_code) };

    ghost view = { λ n. named_of n.named };
}

/// What a seat of a bay knows: what the bay names. No program makes such a value.
pub struct Knowledge {
    pub named: Names<'static>,
}

/// The rule of a bay's table: all its seats know what it names, and a slot holds only its own fiber's task, which
/// belongs to what is named.
pub struct BayRule;

impl<'a> TableRule<Option<FiberTask<'a>>, Knowledge, Names<'a>> for BayRule {
    ghost use Rattle.wait_bay.specs.Rule.{KeepsTasks};

    ghost holds = { KeepsTasks };

    ghost first = { λ named. record { named = named } };
}

/// One seat becomes two, which know the same.
pub(crate) struct Same;

impl Split<Knowledge> for Same {
    ghost left = { λ v. v };

    ghost right = { λ v. v };
}

/// A slot goes out with the seat, if it is at home.
pub(crate) struct Goes;

impl<'a> Play<Option<FiberTask<'a>>, Knowledge> for Goes {
    ghost use Rattle.wait_bay.specs.Rule.{GoesOut};

    ghost then = { GoesOut };
}

/// The slot that the seat took comes home.
pub(crate) struct Returns;

impl<'a> Play<Option<FiberTask<'a>>, Knowledge> for Returns {
    ghost use Rattle.wait_bay.specs.Rule.{ComesHome};

    ghost then = { ComesHome };
}
