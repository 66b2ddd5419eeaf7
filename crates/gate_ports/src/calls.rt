//! The calls on a name of a folder in memory: how many were made, and which fail.
ghost use Rattle.std.specs.Prelude.{◌≡◌, ◌↔◌, ◌++◌, ◌∷◌, [], IsTrue, OnOk, OnErr};
ghost use Rattle.gate_ports.specs.Calls.{no_calls, with_failing, opened_again, created_again};
ghost use Rattle.gate_ports.specs.Calls.{FailsToOpen, FailsToCreate};

use crate::memory::is_listed;
use crate::raise::raised;
use fold_law::Memory;
use std::alloc::Global;
use std::marker::Model;

/// A kind of call, by a name: on the folder, or on what it hands out for the name.
#[derive(Clone, Copy, Debug, PartialEq, Eq)]
pub enum Fail {
    /// The folder's `open` of the name.
    Open,
    /// `fetch` of a source that was handed out for the name.
    Fetch,
    /// The folder's `create` of the name.
    Create,
    /// `give` of a sink that was handed out for the name.
    Give,
}

/// How many times a name was opened and made, and the numbers of the calls that fail, from 0.
#[derive(Drop)]
pub(crate) struct NameCalls {
    opens: u64,
    creates: u64,
    failing_opens: Vec<u64>,
    failing_fetches: Vec<u64>,
    failing_creates: Vec<u64>,
    failing_gives: Vec<u64>,
}

impl Model for NameCalls {
    ghost use Rattle.gate_ports.specs.Calls.{CallsState};

    ghost Value = { CallsState };

    ghost view = { λ s. record {
      opens = s.opens;
      creates = s.creates;
      failing_opens = s.failing_opens.items;
      failing_fetches = s.failing_fetches.items;
      failing_creates = s.failing_creates.items;
      failing_gives = s.failing_gives.items;
    } };
}

/// Adds a number at the end of a list.
fn add_number(numbers: &mut Vec<u64>, number: u64) -> Result<(), Memory>
    ensures ok { OnOk result (numbers.new.items ≡ numbers.old.items ++ number ∷ []) }
    ensures err { OnErr result (numbers.new.items ≡ numbers.old.items) }
{
    match numbers.push(number) {
        Ok(()) => Ok(()),
        Err(_) => Err(Memory),
    }
}

impl NameCalls {
    /// No call was made, and none fails.
    pub(crate) fn none(alloc: Global) -> NameCalls
        ensures { result ≡ no_calls }
    {
        NameCalls {
            opens: 0,
            creates: 0,
            failing_opens: Vec::new(alloc),
            failing_fetches: Vec::new(alloc),
            failing_creates: Vec::new(alloc),
            failing_gives: Vec::new(alloc),
        }
    }

    /// Lists a call that fails.
    pub(crate) fn add_failing(&mut self, what: Fail, number: u64) -> Result<(), Memory>
        ensures ok { OnOk result (self.new ≡ with_failing what number self.old) }
        ensures err { OnErr result (self.new ≡ self.old) }
    {
        match what {
            Fail::Open => add_number(&mut self.failing_opens, number),
            Fail::Fetch => add_number(&mut self.failing_fetches, number),
            Fail::Create => add_number(&mut self.failing_creates, number),
            Fail::Give => add_number(&mut self.failing_gives, number),
        }
    }

    /// Whether the next call that opens the name fails.
    pub(crate) fn fails_to_open(&self) -> bool
        ensures { IsTrue result ↔ FailsToOpen self.now }
    {
        is_listed(&self.failing_opens, self.opens)
    }

    /// Whether the next call that makes the name fails.
    pub(crate) fn fails_to_create(&self) -> bool
        ensures { IsTrue result ↔ FailsToCreate self.now }
    {
        is_listed(&self.failing_creates, self.creates)
    }

    /// The calls that fail on each source of the name.
    pub(crate) fn failing_fetches(&self) -> &[u64]
        ensures { result.now ≡ self.now.failing_fetches }
    {
        &self.failing_fetches
    }

    /// The calls that fail on each sink of the name.
    pub(crate) fn failing_gives(&self) -> &[u64]
        ensures { result.now ≡ self.now.failing_gives }
    {
        &self.failing_gives
    }

    /// Counts one more call that opened the name, or failed to.
    pub(crate) fn count_open(&mut self)
        ensures { self.new ≡ opened_again self.old }
    {
        self.opens = raised(self.opens);
    }

    /// Counts one more call that made the name, or failed to.
    pub(crate) fn count_create(&mut self)
        ensures { self.new ≡ created_again self.old }
    {
        self.creates = raised(self.creates);
    }
}
