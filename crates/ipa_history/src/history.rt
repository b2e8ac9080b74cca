//! Transactions and histories.
ghost use Rattle.std.specs.Prelude.{◌≡◌, ◌+◌, ◌<◌, ◌≤◌, [], ◌∷◌, ◌++◌, length, slice_get, OnOk, OnErr, MatchOption, vec_len, vec_capacity};
ghost use Rattle.std.specs.Option.{option_copied};
ghost use Rattle.ipa_history.specs.Histories.{IsHistory, IsNamedIn, NoneNamedIn};

use ipa_clock::{Cut, Dot};
use ipa_spec::Action;
use std::alloc::{AllocError, Global};
use std::marker::Model;
use std::mem;

/// A transaction: one action, made at a cut.
#[derive(Clone, Copy, PartialEq, Eq)]
pub struct Tx {
    /// Its name.
    pub dot: Dot,
    /// What its origin had seen.
    pub cut: Cut,
    /// What it does.
    pub action: Action,
    /// The arguments of the action, and 0 past them.
    pub args: [u16; 4],
    /// The number of arguments.
    pub count: u8,
}

/// A history, by its type: each transaction stands after those that it has seen.
#[derive(Clone, Drop)]
pub struct History {
    items: Vec<Tx>,
}

impl Model for History {
    ghost use Rattle.std.specs.Prelude.{List};
    ghost use Rattle.ipa_history.specs.declared.history.Tx.{Tx};

    ghost Value = { List Tx };

    ghost view = { λ a. a.items.items };

    ghost use Rattle.ipa_history.specs.Histories.{IsHistory};

    ghost invariant = { λ a. IsHistory a.items.items };
}

impl History {
    /// The history without transactions, which grows in the memory of `alloc`.
    pub fn new(alloc: Global) -> History
        ensures { result ≡ [] }
    {
        History {
            items: Vec::new(alloc),
        }
    }

    /// Appends the transaction, or answers want of memory and leaves the history as it was.
    pub fn push(&mut self, tx: Tx) -> Result<(), AllocError>
        requires { IsHistory (self.old ++ tx ∷ []) }
        ensures ok { OnOk result (self.new ≡ self.old ++ tx ∷ []) }
        ensures err { OnErr result (self.new ≡ self.old) }
    {
        self.items.push(tx)?;
        Ok(())
    }

    /// Appends the transactions, all of them, or answers want of memory and leaves the history as it was.
    pub fn extend(&mut self, more: &[Tx]) -> Result<(), AllocError>
        requires { IsHistory (self.old ++ more.now) }
        ensures ok { OnOk result (self.new ≡ self.old ++ more.now) }
        ensures err { OnErr result (self.new ≡ self.old) }
    {
        self.items.extend_from_slice(more)?;
        Ok(())
    }

    /// Appends the transaction and takes no memory: where the history has used up its own room, its transactions move
    /// into `room`, which is empty and wide enough for all of them and one more. `room` is left empty.
    pub fn push_within(&mut self, tx: Tx, room: &mut Vec<Tx>)
        requires history { IsHistory (self.old ++ tx ∷ []) }
        requires empty { room.old.items ≡ [] }
        requires wide { length self.old < vec_capacity room.old }
        ensures history { self.new ≡ self.old ++ tx ∷ [] }
        ensures room { room.new.items ≡ [] }
    {
        if self.items.len() < self.items.capacity() {
            put(&mut self.items, tx);
        } else {
            move_all(&mut self.items, room);
            put(room, tx);
            mem::swap(&mut self.items, room);
        }
    }

    /// The transaction at `place`, or `None` where the history ends before it.
    pub fn get(&self, place: u32) -> Option<&Tx>
        ensures { option_copied result ≡ slice_get self.now place }
    {
        self.items.get(place as usize)
    }

    /// The number of transactions.
    pub fn len(&self) -> u32
        ensures { result ≡ length self.now }
    {
        self.items.len() as u32
    }

    /// The transaction with this dot, or `None` where there is none.
    pub fn find(&self, dot: Dot) -> Option<&Tx>
        ensures { MatchOption result (NoneNamedIn self.now dot) (λ tx. IsNamedIn self.now dot tx.now) }
    {
        self.items.iter().find(|tx| tx.dot == dot)
    }

    /// The transactions in order, as a slice.
    pub fn as_slice(&self) -> &[Tx]
        ensures history { result.now ≡ self.now }
        ensures formed { IsHistory self.now }
    {
        self.items.as_slice()
    }
}

// Appends to a list that has room.
fn put(list: &mut Vec<Tx>, tx: Tx)
    requires { vec_len list.old < vec_capacity list.old }
    ensures items { list.new.items ≡ list.old.items ++ tx ∷ [] }
{
    if list.push(tx).is_err() {
        return;
    }
}

// Moves all items of one list into another, which is empty and has room for them.
fn move_all(from: &mut Vec<Tx>, to: &mut Vec<Tx>)
    requires empty { to.old.items ≡ [] }
    requires wide { vec_len from.old ≤ vec_capacity to.old }
    ensures items { to.new.items ≡ from.old.items }
    ensures len { vec_len to.new ≡ vec_len from.old }
    ensures capacity { vec_capacity to.old ≤ vec_capacity to.new }
    ensures rest { from.new.items ≡ [] }
{
    if to.append(from).is_err() {
        return;
    }
}
