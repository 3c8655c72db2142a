//! The debts of names: what an open of a name left undone or failed at, so that later opens of the name learn of it.
//!
//! ```text
//!   admit(anew) -> a generation begins: t1, settled
//!   admit(existing) -> t2 of the same generation, settled as soon as t1 settles or is released
//!   fail(t1, why) -> a debt, and a failure that bars further opens: F11, until the name is begun anew or forgotten
//! ```
//!
//! A ticket of an older generation changes nothing, whatever call it comes to.

ghost use Rattle.std.specs.Prelude.{◌≡◌, ◌<◌, ◌-◌, ◌+◌, ◌^◌, ◌⊎◌};
ghost use Rattle.std.specs.Prelude.{◌++◌, ◌∷◌, ◌==◌, not, is_some, None, Some, [], true};
ghost use Rattle.std.specs.Prelude.{false, IfOk, OnErr, MatchResult, MatchOption, filter, find};
ghost use Rattle.std.specs.List.{list_any};
ghost use Rattle.std.specs.Vec.{vec_len, vec_capacity};
ghost use Rattle.fault_storage.specs.Pending.{Registry, Entry, Admits, IsFirst, changed, changed_for, settled, cleared};
ghost use Rattle.fault_storage.specs.Pending.{failed, followed, forgotten, first_ticket, next_ticket, fresh};
ghost use Rattle.fault_storage.specs.Pending.{without_name};
ghost use Rattle.fault_storage.specs.Pending.{is_of, is_settled_in, has_name, has_debt, has_settled, failure_in};
ghost use Rattle.fault_storage.specs.Pending.{entry_of, entry_for};

use crate::error::Error;
use crate::opens::BlobName;
use std::alloc::{AllocError, Global};
use std::marker::Model;

/// The ticket of an open that [`Pending`] admitted, by which the open is told of until it is closed.
#[derive(Debug, Drop)]
pub struct Ticket {
    name: BlobName,
    generation: u64,
    number: u64,
    before: Option<u64>,
}

impl Ticket {
    /// The name that was admitted.
    pub fn name(&self) -> &BlobName
        ensures { result.now ≡ self.now.name }
    {
        &self.name
    }
}

// What stands of a name.
#[derive(Debug, Drop)]
struct Standing {
    name: BlobName,
    generation: u64,
    latest: u64,
    unsettled: Vec<u64>,
    debt: bool,
    failure: Option<Error>,
}

impl Model for Standing {
    ghost use Rattle.fault_storage.specs.Pending.{Entry};

    ghost Value = { Entry };

    ghost view = { λ it. record {
      name = it.name;
      generation = it.generation;
      latest = it.latest;
      unsettled = it.unsettled.items;
      debt = it.debt;
      failure = it.failure;
    } };
}

// Takes the open with this number from those that are not settled.
fn settle_number(unsettled: &mut Vec<u64>, number: u64)
    ensures { unsettled.new.items ≡ filter (λ other. not (other == number)) unsettled.old.items }
{
    unsettled.retain(|other| *other != number);
}

impl Standing {
    // Whether it is of this name.
    fn has_name(&self, partition: &str, name: &[u8]) -> bool
        ensures { result ≡ has_name partition.now name.now self.now }
    {
        self.name.is(partition, name)
    }

    // Whether the ticket is of its name and generation.
    fn is_of(&self, ticket: &Ticket) -> bool
        ensures { result ≡ is_of ticket.now self.now }
    {
        self.name.is_same(&ticket.name) && self.generation == ticket.generation
    }

    // Whether there is a debt.
    fn has_debt(&self) -> bool
        ensures { result ≡ self.now.debt }
    {
        self.debt
    }

    // The failure that is retained.
    fn failure(&self) -> Option<Error>
        ensures { result ≡ self.now.failure }
    {
        self.failure
    }

    // Whether the open with this number is settled.
    fn is_settled(&self, number: u64) -> bool
        ensures { result ≡ is_settled_in number self.now }
    {
        !self.unsettled.contains(&number)
    }

    // Adds an open, which is the latest from now on. It fails only when out of memory, and then nothing is changed.
    fn follow(&mut self, name: BlobName, number: u64) -> Result<Ticket, AllocError>
        ensures ok { IfOk result (λ ticket. (ticket ≡ next_ticket name number self.old)
            × (self.new ≡ followed number self.old)) }
        ensures err { OnErr result (self.new ≡ self.old) }
    {
        self.unsettled.push(number)?;
        let before = self.latest;
        self.latest = number;
        Ok(Ticket {
            name,
            generation: self.generation,
            number,
            before: Some(before),
        })
    }

    // Settles the open with this number.
    fn settle(&mut self, number: u64)
        ensures { self.new ≡ settled number self.old }
    {
        settle_number(&mut self.unsettled, number);
    }

    // Ends the debt where the open with this number is the latest and no failure is retained.
    fn clear(&mut self, number: u64)
        ensures { self.new ≡ cleared number self.old }
    {
        if self.latest == number && self.failure.is_none() {
            self.debt = false;
        }
    }

    // Retains the failure, and records a debt.
    fn fail(&mut self, failure: Error)
        ensures { self.new ≡ failed failure self.old }
    {
        self.debt = true;
        self.failure = Some(failure);
    }
}

// The place of what stands of the name, or None where nothing does.
fn place_of_name(standings: &[Standing], partition: &str, name: &[u8]) -> Option<usize>
    ensures { let test = has_name partition.now name.now in
        MatchOption result (find test standings.now ≡ None) (IsFirst test standings.now) }
{
    for (place, standing) in standings.iter().enumerate() {
        if standing.has_name(partition, name) {
            return Some(place);
        }
    }
    None
}

// The place of what stands of the ticket's name, or None where that is in another generation.
fn place_for(standings: &[Standing], ticket: &Ticket) -> Option<usize>
    ensures { let test = is_of ticket.now in
        MatchOption result (find test standings.now ≡ None) (IsFirst test standings.now) }
{
    for (place, standing) in standings.iter().enumerate() {
        if standing.is_of(ticket) {
            return Some(place);
        }
    }
    None
}

// The place of what stands of the name, where an existing one is asked for and there is one.
fn place_to_follow(
    standings: &[Standing],
    partition: &str,
    name: &[u8],
    existing: bool,
) -> Option<usize>
    ensures { let test = has_name partition.now name.now in
        MatchOption result ((existing ≡ false) ⊎ (find test standings.now ≡ None))
        (λ place. (existing ≡ true) × IsFirst test standings.now place) }
{
    if existing {
        place_of_name(standings, partition, name)
    } else {
        None
    }
}

// Takes away what stands of the name.
fn forget_name(standings: &mut Vec<Standing>, partition: &str, name: &[u8])
    ensures names { standings.new.items ≡ without_name partition.now name.now standings.old.items }
    ensures room { vec_len standings.old < vec_capacity standings.old
        → vec_len standings.new < vec_capacity standings.new }
{
    standings.retain(|standing| !standing.has_name(partition, name));
}

// Puts what stands of a name behind the others. There is room for it.
fn put_last(standings: &mut Vec<Standing>, added: Standing)
    requires { vec_len standings.old < vec_capacity standings.old }
    ensures { standings.new.items ≡ standings.old.items ++ added ∷ [] }
{
    let _ = standings.push(added);
}

// What stands of a name whose first open has this number. It fails only when out of memory.
fn fresh_standing(alloc: Global, name: BlobName, number: u64) -> Result<Standing, AllocError>
    ensures { IfOk result (λ made. made ≡ fresh name number) }
{
    let mut unsettled = Vec::new(alloc);
    unsettled.push(number)?;
    Ok(Standing {
        name,
        generation: number,
        latest: number,
        unsettled,
        debt: false,
        failure: None,
    })
}

// Begins the name anew, with an open of this number. It fails only when out of memory, and then nothing is changed.
fn begin_name(
    alloc: Global,
    standings: &mut Vec<Standing>,
    number: u64,
    partition: &str,
    name: &[u8],
) -> Result<Ticket, AllocError>
    ensures ok { IfOk result (λ ticket. (ticket ≡ first_ticket (partition.now, name.now) number)
        × (standings.new.items ≡ without_name partition.now name.now standings.old.items
        ++ fresh (partition.now, name.now) number ∷ [])) }
    ensures err { OnErr result (standings.new.items ≡ standings.old.items) }
{
    let noted = BlobName::new(alloc, partition, name)?;
    let known = BlobName::new(alloc, partition, name)?;
    let added = fresh_standing(alloc, noted, number)?;
    standings.reserve(1)?;
    forget_name(standings, partition, name);
    put_last(standings, added);
    Ok(Ticket {
        name: known,
        generation: number,
        number,
        before: None,
    })
}

// Adds an open of this number to the name that stands at the place. F11: a failure is retained; F9, and nothing is
// changed.
fn follow_at(
    alloc: Global,
    standings: &mut Vec<Standing>,
    place: usize,
    number: u64,
    partition: &str,
    name: &[u8],
) -> Result<Ticket, Error>
    requires { IsFirst (has_name partition.now name.now) standings.old.items place }
    ensures { let test = has_name partition.now name.now in let found = find test standings.old.items in
        MatchResult result
        (λ ticket. (is_some (failure_in found) ≡ false)
        × ((standing : Entry) → found ≡ Some standing → ticket ≡ next_ticket (partition.now, name.now) number standing)
        × (standings.new.items ≡ changed test (followed number) standings.old.items))
        (λ e. (standings.new.items ≡ standings.old.items)
        × (((e ≡ Error.Retained) × (is_some (failure_in found) ≡ true))
        ⊎ ((e ≡ Error.Memory) × (is_some (failure_in found) ≡ false)))) }
{
    if standings[place].failure().is_some() {
        return Err(Error::Retained);
    }
    let known = BlobName::new(alloc, partition, name)?;
    Ok(standings[place].follow(known, number)?)
}

// Settles the ticket's open, where its name is in its generation.
fn settle_for(standings: &mut Vec<Standing>, ticket: &Ticket)
    ensures { standings.new.items ≡ changed (is_of ticket.now) (settled ticket.now.number) standings.old.items }
{
    if let Some(place) = place_for(standings, ticket) {
        standings[place].settle(ticket.number);
    }
}

// Ends the debt by the ticket's open, where its name is in its generation.
fn clear_for(standings: &mut Vec<Standing>, ticket: &Ticket)
    ensures { standings.new.items ≡ changed (is_of ticket.now) (cleared ticket.now.number) standings.old.items }
{
    if let Some(place) = place_for(standings, ticket) {
        standings[place].clear(ticket.number);
    }
}

// Retains the failure of the ticket's open, where its name is in its generation.
fn fail_for(standings: &mut Vec<Standing>, ticket: &Ticket, failure: Error)
    ensures { standings.new.items ≡ changed (is_of ticket.now) (failed failure) standings.old.items }
{
    if let Some(place) = place_for(standings, ticket) {
        standings[place].fail(failure);
    }
}

/// The debts of names: for each its generation, its latest open, whether there is a debt, and the failure that is
/// retained.
/// In the Rust: `commonware_runtime::storage::Pending`.
#[derive(Debug, Drop)]
pub struct Pending {
    alloc: Global,
    standings: Vec<Standing>,
    next: u64,
}

impl Model for Pending {
    ghost use Rattle.fault_storage.specs.Pending.{Registry};

    ghost Value = { Registry };

    ghost view = { λ it. record { entries = it.standings.items; next = it.next } };
}

impl Pending {
    /// Nothing stands of any name.
    pub fn new(alloc: Global) -> Pending
        ensures { result ≡ record { entries = []; next = 0 } }
    {
        Pending {
            alloc,
            standings: Vec::new(alloc),
            next: 0,
        }
    }

    /// Admits an open of the name: the ticket of a new generation, without debt or failure, or where `existing` is
    /// asked for and the name is there, of a further open of it. F8: tickets have ended; F11: the name is asked for as
    /// it is, and a failure of it is retained; F9. Refused, it changes nothing. In the Rust:
    /// `commonware_runtime::storage::Pending::admit`.
    pub fn admit(&mut self, partition: &str, name: &[u8], existing: bool) -> Result<Ticket, Error>
        ensures { Admits partition.now name.now existing self.old result self.new }
    {
        if self.next == u64::MAX {
            return Err(Error::NumberEnded);
        }
        let number = self.next;
        match place_to_follow(&self.standings, partition, name, existing) {
            Some(place) => {
                let ticket = follow_at(
                    self.alloc,
                    &mut self.standings,
                    place,
                    number,
                    partition,
                    name,
                )?;
                self.next += 1;
                Ok(ticket)
            }
            None => {
                let ticket = begin_name(self.alloc, &mut self.standings, number, partition, name)?;
                self.next += 1;
                Ok(ticket)
            }
        }
    }

    /// Settles the open, so that the one after it may go on. A ticket of an older generation changes nothing.
    /// In the Rust: `commonware_runtime::storage::Pending::settle`.
    pub fn settle(&mut self, ticket: &Ticket)
        ensures { self.new ≡ changed_for ticket.now (settled ticket.now.number) self.old }
    {
        settle_for(&mut self.standings, ticket);
    }

    /// Gives the open up, so that the one after it may go on: a debt and a failure of the name stay. A ticket of an
    /// older generation changes nothing. In the Rust: `commonware_runtime::storage::Pending::release`.
    pub fn release(&mut self, ticket: &Ticket)
        ensures { self.new ≡ changed_for ticket.now (settled ticket.now.number) self.old }
    {
        self.settle(ticket);
    }

    /// Whether the open need not wait: the one before it has settled or was released, or there is none, or the ticket
    /// is of an older generation (own; in the Rust `wait`).
    pub fn settled(&self, ticket: &Ticket) -> bool
        ensures { result ≡ has_settled ticket.now.before (entry_for ticket.now self.now) }
    {
        let Some(before) = ticket.before else {
            return true;
        };
        match place_for(&self.standings, ticket) {
            Some(place) => self.standings[place].is_settled(before),
            None => true,
        }
    }

    /// Whether a debt of the name is recorded; false where the ticket is of an older generation.
    /// In the Rust: `commonware_runtime::storage::Pending::debt`.
    pub fn debt(&self, ticket: &Ticket) -> bool
        ensures { result ≡ has_debt (entry_for ticket.now self.now) }
    {
        match place_for(&self.standings, ticket) {
            Some(place) => self.standings[place].has_debt(),
            None => false,
        }
    }

    /// The failure of the name that is retained, or None (own).
    pub fn retained(&self, partition: &str, name: &[u8]) -> Option<Error>
        ensures { result ≡ failure_in (entry_of partition.now name.now self.now) }
    {
        match place_of_name(&self.standings, partition, name) {
            Some(place) => self.standings[place].failure(),
            None => None,
        }
    }

    /// Ends the debt of the name, where the open is its latest and no failure is retained. A ticket of an older
    /// generation changes nothing. In the Rust: `commonware_runtime::storage::Pending::clear`.
    pub fn clear(&mut self, ticket: &Ticket)
        ensures { self.new ≡ changed_for ticket.now (cleared ticket.now.number) self.old }
    {
        clear_for(&mut self.standings, ticket);
    }

    /// Records a debt of the name, and retains the failure in place of an earlier one. A ticket of an older generation
    /// changes nothing.
    /// In the Rust: `commonware_runtime::storage::Pending::fail`.
    pub fn fail(&mut self, ticket: &Ticket, failure: Error)
        ensures { self.new ≡ changed_for ticket.now (failed failure) self.old }
    {
        fail_for(&mut self.standings, ticket, failure);
    }

    /// Forgets the name, with its debt and its failure: its tickets are of an older generation from now on.
    /// In the Rust: `commonware_runtime::storage::Pending::forget`.
    pub fn forget(&mut self, partition: &str, name: &[u8])
        ensures { self.new ≡ forgotten partition.now name.now self.old }
    {
        forget_name(&mut self.standings, partition, name);
    }

    /// Spends the ticket, and changes nothing: an open that is neither settled nor released keeps the one after it
    /// waiting. In the Rust a ticket is dropped.
    pub fn close(&mut self, spent: Ticket)
        ensures { self.new ≡ self.old }
    {
        let Ticket {
            name,
            generation,
            number,
            before,
        } = spent;
    }
}
