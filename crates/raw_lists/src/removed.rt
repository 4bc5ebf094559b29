use crate::row::Row;
use std::marker::Model;

/// Items that were moved out of a list, with what else the list holds no more.
#[derive(Drop)]
pub struct Removed<T> {
    /// The items, in order.
    pub items: Vec<T>,
    /// What is only to be dropped.
    pub spent: Spent<T>,
}

/// Copies of items that a list had made before the items were moved out of it, and its spent row. A contract sees
/// nothing of it.
#[derive(Drop)]
pub struct Spent<T> {
    copies: Vec<T>,
    row: Option<Row<T>>,
}

impl<T> Model for Spent<T> {
    ghost use Rattle.std.specs.Prelude.{⊤};

    ghost Value = { ⊤ };

    ghost view = { λ _. tt };
}

impl<T> Spent<T> {
    /// Takes what is to be dropped.
    pub(crate) fn new(copies: Vec<T>, row: Option<Row<T>>) -> Spent<T> {
        Spent { copies, row }
    }
}
