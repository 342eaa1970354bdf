//! What the holders share.
ghost use Rattle.std.specs.Prelude.{◌≡◌, ◌++◌, IfOk, []};
ghost use Rattle.bq_history.specs.Whole.{MayExchange, Has, first_item, others_of};
ghost use Rattle.bq_history.specs.Tables.{table_of, start_of};

use crate::holder::Holder;
use crate::law::{AllItems, Fact, FirstItem, Holding, ItemsJoined, Law, Look, Naming, Ruled, Step};
use atomic_table::{Seat, Table};
use std::alloc::{AllocError, Global};
use std::collections::LinkedList;
use std::marker::{Brand, Model, PhantomData};

/// A whole that has no name yet. Contracts see it as the table's name and what was fixed when it was made.
#[derive(Drop)]
pub struct Unnamed<E, T, S, L: Law<E, T, S>> {
    table: Table<(), LinkedList<E>, S, Ruled<E, T, S, L>, Global>,
    seat: Seat<(), LinkedList<E>>,
}

impl<E, T, S, L: Law<E, T, S>> Model for Unnamed<E, T, S, L> {
    ghost use Rattle.std.specs.Prelude.{◌≡◌, []};
    ghost use Rattle.atomic_table.specs.Seated.{TableId};
    ghost use Rattle.bq_history.specs.Tables.{IsOfWords};

    ghost Value = { TableId × S };

    ghost view = { λ u. (u.table.shared.table_id, u.table.shared.key) };

    ghost invariant = { λ u. IsOfWords 1 u.table.shared.table_id × (u.seat.table_id ≡ u.table.shared.table_id) × (u.seat.me ≡ (L.first u.table.shared.key, [])) };
}

/// What the holders of one whole share. Contracts see it as what was fixed when it was made.
#[derive(Drop)]
pub struct Owner<E, T, S, L: Law<E, T, S>, N: Naming> {
    table: Table<(), LinkedList<E>, S, Ruled<E, T, S, L>, Global>,
    of: PhantomData<N>,
}

impl<E, T, S, L: Law<E, T, S>, N: Naming> Model for Owner<E, T, S, L, N> {
    ghost use Rattle.std.specs.Prelude.{◌≡◌};
    ghost use Rattle.bq_history.specs.Tables.{IsOfWords};

    ghost Value = { S };

    ghost view = { λ o. o.table.shared.key };

    ghost invariant = { λ o. (o.table.shared.table_id ≡ N.table) × IsOfWords 1 o.table.shared.table_id };
}

impl<E, T, S, L: Law<E, T, S>> Unnamed<E, T, S, L> {
    /// The whole at the start, without a name. It takes the memory for the table that the holders share.
    pub fn new(alloc: Global, start: &S) -> Result<Unnamed<E, T, S, L>, AllocError>
        requires { Has L.same (L.good start.now) L.fits (L.first start.now) }
        ensures { IfOk result (λ u. start_of u ≡ start.now) }
    {
        let (table, seat) = Table::of_words(alloc, &[0], start)?;
        Ok(Unnamed { table, seat })
    }

    /// The whole under its name, with one holder of all items.
    pub fn named<N: Naming>(self) -> (Owner<E, T, S, L, N>, Holder<E, N>)
        requires { table_of self ≡ N.table }
        ensures { (result.0 ≡ start_of self) × (result.1 ≡ L.first (start_of self)) }
    {
        let Unnamed { table, seat } = self;
        (
            Owner {
                table,
                of: PhantomData,
            },
            Holder {
                seat,
                of: PhantomData,
            },
        )
    }
}

impl<E, T, S, L: Law<E, T, S>, N: Naming> Owner<E, T, S, L, N> {
    /// Gives all items to a new holder.
    pub fn take_all(&self, from: &mut Holder<E, N>) -> Holder<E, N>
        ensures { (from.new ≡ []) × (result ≡ from.old) }
    {
        let seat = self.table.shared.split_seat::<AllItems>(&mut from.seat);
        Holder {
            seat,
            of: PhantomData,
        }
    }

    /// Gives the first item to a new holder.
    pub fn take_first(&self, from: &mut Holder<E, N>) -> Holder<E, N>
        ensures { (from.new ≡ others_of from.old) × (result ≡ first_item from.old) }
    {
        let seat = self.table.shared.split_seat::<FirstItem>(&mut from.seat);
        Holder {
            seat,
            of: PhantomData,
        }
    }

    /// Gives all that `other` has to `to`.
    pub fn join(&self, to: &mut Holder<E, N>, other: Holder<E, N>)
        ensures { to.new ≡ to.old ++ other }
    {
        let Holder { seat, of: _ } = other;
        self.table
            .shared
            .join_seat::<ItemsJoined>(&mut to.seat, seat);
    }

    /// Gives all that `from` has to `to`. Afterwards `from` is empty, and may be used again.
    pub fn gather(&self, to: &mut Holder<E, N>, from: &mut Holder<E, N>)
        ensures { (to.new ≡ to.old ++ from.old) × (from.new ≡ []) }
    {
        let all = self.take_all(from);
        self.join(to, all);
    }

    /// Gives the first item of `from` to `to`.
    pub fn deal(&self, from: &mut Holder<E, N>, to: &mut Holder<E, N>)
        ensures { (from.new ≡ others_of from.old) × (to.new ≡ to.old ++ first_item from.old) }
    {
        let one = self.take_first(from);
        self.join(to, one);
    }

    /// Changes the parts that one holder has, all together.
    pub fn change<C: Holding<E>>(&self, holder: &mut Holder<E, N>)
        requires changes { MayExchange L.same (L.good self.now) L.fits holder.old C.items }
        ensures { holder.new ≡ C.items }
    {
        self.table.shared.load::<Step<C>>(&mut holder.seat, 0);
    }

    fn look_for<F: Fact>(&self, holder: &mut Holder<E, N>)
        requires { Has L.same (L.good self.now) L.fits holder.old → F.fact }
        ensures same { holder.new ≡ holder.old }
        ensures known { F.fact }
    {
        self.table.shared.load::<Look<F>>(&mut holder.seat, 0);
    }

    /// The whole at this moment: it has the parts of this holder, and no part is among them twice.
    pub fn look(&self, holder: &mut Holder<E, N>)
        ensures same { holder.new ≡ holder.old }
        ensures known { Has L.same (L.good self.now) L.fits holder.old }
    {
        self.look_for::<Brand>(holder);
    }

    /// The whole at the end: it has the parts of this holder, and no part is among them twice.
    pub fn close(self, all: Holder<E, N>)
        ensures { Has L.same (L.good self) L.fits all }
    {
        let Owner { table, of: _ } = self;
        let Holder { seat, of: _ } = all;
        table.close_with(seat).free();
    }
}
