//! Tasks.

use crate::write::Writes;
use guards_base::{Sequence, Text};
use std::marker::Model;

/// Some writes under a name.
#[derive(Drop)]
pub struct Task {
    pub name: Text,
    pub writes: Writes,
}

impl Model for Task {
    ghost use Rattle.guards_model.specs.Tasks.{TaskValue};
    ghost use Rattle.task_table.specs.Codes.{coded_task};

    ghost Value = { TaskValue };

    ghost coded = { coded_task };

    ghost view = { λ task. record { name = task.name; writes = task.writes.items } };
}

/// The tasks of a mission.
pub type Tasks = Sequence<Task>;
