//! What is pending of names, with the tickets that were given, from number 0 on.

use crate::calls::partition_of;
use crate::told::{refused, truth};
use case_lines::{Unanswered, bytes};
use fault_storage::{Call, Error, Pending, Ticket};
use std::alloc::Global;

/// What is pending, and the tickets that are not closed.
#[derive(Drop)]
pub struct Debts {
    pending: Pending,
    tickets: Vec<Option<Ticket>>,
}

// The failure of this number.
fn failure(word: &str) -> Result<Error, Unanswered> {
    match word {
        "F1" => Ok(Error::BlobMissing),
        "F6" => Ok(Error::Injected(Call::Sync)),
        "F9" => Ok(Error::Memory),
        _ => Err(Unanswered::BadLine),
    }
}

impl Debts {
    /// Nothing is pending.
    pub fn new(alloc: Global) -> Debts {
        Debts {
            pending: Pending::new(alloc),
            tickets: Vec::new(alloc),
        }
    }

    // Admits a name: the number of its ticket, or the refusal.
    fn admit(
        &mut self,
        alloc: Global,
        partition: &str,
        name: &str,
        existing: bool,
    ) -> Result<String, Unanswered> {
        let name = bytes(alloc, name)?;
        match self.pending.admit(partition_of(partition), &name, existing) {
            Ok(ticket) => {
                let given = self.tickets.len();
                self.tickets.push(Some(ticket))?;
                Ok(format!(in alloc; "{given}")?)
            }
            Err(error) => refused(alloc, error),
        }
    }

    // The failure of a name that is retained, or that none is.
    fn retained(&self, alloc: Global, partition: &str, name: &str) -> Result<String, Unanswered> {
        let name = bytes(alloc, name)?;
        match self.pending.retained(partition_of(partition), &name) {
            Some(failure) => refused(alloc, failure),
            None => Ok("none".to_string(alloc)?),
        }
    }

    // Closes the ticket in this place.
    fn close(&mut self, place: usize) -> Result<(), Unanswered> {
        let slot = self.tickets.get_mut(place).ok_or(Unanswered::BadLine)?;
        let ticket = slot.take().ok_or(Unanswered::BadLine)?;
        self.pending.close(ticket);
        Ok(())
    }

    // Makes a call of a ticket.
    fn of_ticket(
        &mut self,
        alloc: Global,
        place: usize,
        words: &[&str],
    ) -> Result<String, Unanswered> {
        let Some(Some(ticket)) = self.tickets.get(place) else {
            return Err(Unanswered::BadLine);
        };
        match words {
            ["settle"] => self.pending.settle(ticket),
            ["release"] => self.pending.release(ticket),
            ["clear"] => self.pending.clear(ticket),
            ["fail", word] => self.pending.fail(ticket, failure(word)?),
            ["settled"] => return truth(alloc, self.pending.settled(ticket)),
            ["debt"] => return truth(alloc, self.pending.debt(ticket)),
            _ => return Err(Unanswered::BadLine),
        }
        Ok("ok".to_string(alloc)?)
    }

    /// Makes a call of what is pending.
    pub fn answer(&mut self, alloc: Global, words: &[&str]) -> Result<String, Unanswered> {
        match words {
            ["admit", partition, name, "anew"] => self.admit(alloc, partition, name, false),
            ["admit", partition, name, "existing"] => self.admit(alloc, partition, name, true),
            ["retained", partition, name] => self.retained(alloc, partition, name),
            ["forget", partition, name] => {
                let name = bytes(alloc, name)?;
                self.pending.forget(partition_of(partition), &name);
                Ok("ok".to_string(alloc)?)
            }
            ["ticket", place, "close"] => {
                self.close(place.parse()?)?;
                Ok("ok".to_string(alloc)?)
            }
            ["ticket", place, words @ ..] => self.of_ticket(alloc, place.parse()?, words),
            _ => Err(Unanswered::BadLine),
        }
    }
}
