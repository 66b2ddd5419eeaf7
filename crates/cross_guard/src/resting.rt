//! An order that may rest at the venue.
ghost use Rattle.std.specs.Prelude.{◌≡◌, ◌≤◌, IfOk, OnOk, OnErr, IfSome, IfNone, true, false, fold};
ghost use Rattle.std.specs.List.{list_any};
ghost use Rattle.fold_law.specs.Whole.{whole_of};
ghost use Rattle.cross_guard.specs.Halves.{cross_cap, cross_join};
ghost use Rattle.cross_guard.specs.declared.resting.Term.{Term};
ghost use Rattle.cross_guard.specs.Held.{IsLast};
ghost use Rattle.cross_guard.specs.Resting.{started, has_id, is_open_with, is_term_of, with_id};
ghost use Rattle.cross_guard.specs.Resting.{with_term, without_term, with_terms, terms_from, terms_without};
ghost use Rattle.cross_guard.specs.Resting.{later_without, ended, is_first_id, is_none};
ghost use Rattle.cross_guard.specs.Resting.{largest_total};
ghost use Rattle.cross_guard.specs.Resting.{traded, reported, values_of};

use crate::cross::joined;
use fix_fields::Id;
use fix_orders::Exec;
use fold_law::Memory;
use std::alloc::Global;
use std::marker::Model;

/// What an order may rest as: the ClOrdID (11) and the OrderQty (38) of the request that asks for it,
/// and its value.
#[derive(Clone, Copy, Debug)]
pub struct Term {
    pub id: Id,
    pub value: u64,
    pub total: u64,
}

/// Whether a term has this id.
fn has_term(terms: &[Term], id: &[u8]) -> bool
    ensures { result ≡ list_any (is_term_of id.now) terms.now }
{
    terms.iter().any(|term| term.id.bytes() == id)
}

/// Takes out the terms before the first with this id.
fn drop_before(terms: &mut Vec<Term>, id: &[u8])
    requires { list_any (is_term_of id.now) terms.old.items ≡ true }
    ensures { terms.new.items ≡ terms_from id.now terms.old.items }
{
    while terms[0].id.bytes() != id {
        terms.remove(0);
    }
}

/// The place of the last term with this id.
fn last_term(terms: &[Term], id: &[u8]) -> Option<usize>
    ensures some { IfSome result (λ place. IsLast (is_term_of id.now) place terms.now) }
    ensures none { IfNone result (list_any (is_term_of id.now) terms.now ≡ false) }
{
    let mut place = terms.len();
    while place > 0 {
        place -= 1;
        if terms[place].id.bytes() == id {
            return Some(place);
        }
    }
    None
}

/// Takes out the terms before the first with this id, where there is one.
fn keep_from_first(terms: &mut Vec<Term>, id: &[u8])
    ensures { terms.new.items ≡ terms_from id.now terms.old.items }
{
    if has_term(terms, id) {
        drop_before(terms, id);
    }
}

/// Takes out the last term with this id, where there is one.
fn take_out_last(terms: &mut Vec<Term>, id: &[u8])
    ensures { terms.new.items ≡ terms_without id.now terms.old.items }
{
    match last_term(terms, id) {
        Some(place) => {
            terms.remove(place);
        }
        None => {}
    }
}

/// The same, but the first term stays.
fn take_out_later(terms: &mut Vec<Term>, id: &[u8])
    ensures { terms.new.items ≡ later_without id.now terms.old.items }
{
    match last_term(terms, id) {
        Some(place) => {
            if place > 0 {
                terms.remove(place);
            }
        }
        None => {}
    }
}

/// Whether no term is left.
fn is_none(terms: &[Term]) -> bool
    ensures { result ≡ is_none terms.now }
{
    match terms {
        [] => true,
        [_, ..] => false,
    }
}

/// The values of the terms as one.
fn join_all(terms: &[Term]) -> u64
    ensures { result ≡ fold (λ all (term : Term). cross_join all term.value) 0 terms.now }
{
    terms.iter().fold(0, |all, term| joined(all, term.value))
}

/// The largest quantity that a term asks for.
fn largest_total(terms: &[Term]) -> u64
    ensures { result ≡ largest_total terms.now }
{
    terms.iter().fold(0, |most, term| most.max(term.total))
}

/// Whether the id is the first of these.
fn is_first_id(ids: &[Id], id: &[u8]) -> bool
    ensures { result ≡ is_first_id id.now ids.now }
{
    match ids {
        [first, ..] => first.bytes() == id,
        [] => false,
    }
}

/// An order at the venue, with all that it may rest as. Contracts see its ids and terms as lists.
#[derive(Drop)]
pub(crate) struct RestingOrder {
    symbol: u32,
    side: u8,
    ids: Vec<Id>,
    terms: Vec<Term>,
    /// The quantity filled, in whole units: of an open order it fits 64 bits.
    filled: u128,
    closed: bool,
}

impl Model for RestingOrder {
    ghost use Rattle.cross_guard.specs.Resting.{RestingValue};
    ghost use Rattle.cross_guard.specs.Held.{IsHeld};

    ghost Value = { RestingValue };

    ghost view = { λ a. record {
      symbol = a.symbol;
      side = a.side;
      ids = a.ids.items;
      terms = a.terms.items;
      filled = a.filled;
      closed = a.closed;
    } };

    ghost invariant = { λ a. IsHeld a.terms.items a.filled a.closed };
}

impl RestingOrder {
    /// An order of the symbol at this place that starts with a term.
    pub(crate) fn start(
        alloc: Global,
        symbol: u32,
        side: u8,
        term: &Term,
    ) -> Result<RestingOrder, Memory>
        requires { term.now.value ≤ cross_cap }
        ensures { IfOk result (λ order. order ≡ started symbol side term.now) }
    {
        let mut ids = Vec::new(alloc);
        let mut terms = Vec::new(alloc);
        if ids.push(term.id).is_err() || terms.push(*term).is_err() {
            return Err(Memory);
        }
        Ok(RestingOrder {
            symbol,
            side,
            ids,
            terms,
            filled: 0,
            closed: false,
        })
    }

    /// The place of its symbol, from 0.
    pub(crate) fn symbol(&self) -> u32
        ensures { result ≡ self.now.symbol }
    {
        self.symbol
    }

    /// The byte of its Side (54).
    pub(crate) fn side(&self) -> u8
        ensures { result ≡ self.now.side }
    {
        self.side
    }

    /// Whether one of its ids is this one.
    fn has_id(&self, id: &[u8]) -> bool
        ensures { result ≡ has_id id.now self.now }
    {
        self.ids.iter().any(|own| own.bytes() == id)
    }

    /// Whether it isn't closed and has the id.
    pub(crate) fn is_open_with(&self, id: &[u8]) -> bool
        ensures { result ≡ is_open_with id.now self.now }
    {
        !self.closed && self.has_id(id)
    }

    /// Adds an id.
    pub(crate) fn add_id(&mut self, id: Id) -> Result<(), Memory>
        ensures ok { OnOk result (self.new ≡ with_id id self.old) }
        ensures err { OnErr result (self.new ≡ self.old) }
    {
        if self.ids.push(id).is_err() {
            return Err(Memory);
        }
        Ok(())
    }

    /// Adds a term, and its id.
    pub(crate) fn add_term(&mut self, term: &Term) -> Result<(), Memory>
        requires capped { term.now.value ≤ cross_cap }
        ensures ok { OnOk result (self.new ≡ with_term term.now self.old) }
        ensures err { OnErr result (self.new ≡ self.old) }
    {
        if self.ids.push(term.id).is_err() {
            return Err(Memory);
        }
        if self.terms.push(*term).is_err() {
            self.ids.pop();
            return Err(Memory);
        }
        Ok(())
    }

    /// Drops the last id and the last term.
    pub(crate) fn drop_term(&mut self)
        ensures { self.new ≡ without_term self.old }
    {
        self.ids.pop();
        self.terms.pop();
    }

    fn close(&mut self)
        ensures { self.new ≡ ended self.old }
    {
        self.closed = true;
    }

    /// Takes out the terms before the first with this id, where there is one.
    fn keep_from(&mut self, id: &[u8])
        requires { self.old.closed ≡ false }
        ensures { self.new ≡ with_terms (terms_from id.now self.old.terms) self.old }
    {
        keep_from_first(&mut self.terms, id);
        self.closed = is_none(&self.terms);
    }

    /// Takes out the last term with this id, where there is one.
    fn drop_last(&mut self, id: &[u8])
        requires { self.old.closed ≡ false }
        ensures { self.new ≡ with_terms (terms_without id.now self.old.terms) self.old }
    {
        take_out_last(&mut self.terms, id);
        self.closed = is_none(&self.terms);
    }

    /// What a cancel reject with this id makes of it while it is open.
    pub(crate) fn reject(&mut self, id: &[u8])
        requires { self.old.closed ≡ false }
        ensures { self.new ≡ with_terms (later_without id.now self.old.terms) self.old }
    {
        take_out_later(&mut self.terms, id);
        self.closed = is_none(&self.terms);
    }

    /// So much was filled.
    fn trade(&mut self, quantity: u64)
        requires { self.old.closed ≡ false }
        ensures { self.new ≡ traded quantity self.old }
    {
        self.filled += u128::from(quantity);
        self.closed = u128::from(largest_total(&self.terms)) <= self.filled;
    }

    /// What a report with this id makes of it while it is open.
    pub(crate) fn report(&mut self, id: &[u8], exec: Exec)
        requires { self.old.closed ≡ false }
        ensures { self.new ≡ reported id.now exec self.old }
    {
        match exec {
            Exec::New | Exec::Else => {}
            Exec::Canceled | Exec::Expired => self.close(),
            Exec::Replaced => self.keep_from(id),
            Exec::Rejected if is_first_id(&self.ids, id) => self.close(),
            Exec::Rejected => self.drop_last(id),
            Exec::Trade { quantity, .. } => self.trade(quantity),
        }
    }

    /// What it rests as in a symbol, 0 where it is closed or of another.
    pub(crate) fn rests_in(&self, symbol: u32) -> u64
        ensures value { result ≡ whole_of cross_join 0 (values_of symbol self.now) }
        ensures capped { result ≤ cross_cap }
    {
        if self.closed || self.symbol != symbol {
            return 0;
        }
        join_all(&self.terms)
    }
}
