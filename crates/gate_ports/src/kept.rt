//! What a folder in memory keeps of its names.
ghost use Rattle.std.specs.Prelude.{◌≡◌, ◌↔◌, ◌⊎◌, IfOk, IfSome, IfNone, OnOk, OnErr, IsSome};
ghost use Rattle.std.specs.Prelude.{IsTrue, Some, None, true};
ghost use Rattle.std.specs.Option.{option_map};
ghost use Rattle.std.specs.Result.{is_ok};
ghost use Rattle.std.specs.BTreeMap.{get_by_text};
ghost use Rattle.gate_ports.specs.Calls.{with_calls, with_failing, opened_again, created_again};
ghost use Rattle.gate_ports.specs.Calls.{no_calls, FailsToOpen, FailsToCreate};
ghost use Rattle.gate_ports.specs.Faults.{counted};
ghost use Rattle.gate_ports.specs.Names.{with_text};
ghost use Rattle.gate_ports.specs.Kept.{SetsName, SameNames, SameOthers, text_at, calls_at};
ghost use Rattle.gate_ports.specs.Kept.{read_faults_at, write_faults_at};
ghost use Rattle.gate_ports.specs.Kept.{SameTexts, SameFaults, SameCalls};

use crate::calls::{Fail, NameCalls};
use crate::raise::raised_if;
use fold_law::Memory;
use std::alloc::Global;
use std::collections::BTreeMap;
use std::mem;

/// What is kept of a name: its text, if it is there, its counts of faults, and its calls.
#[derive(Drop)]
pub(crate) struct Named {
    text: Option<Vec<u8>>,
    read_faults: u64,
    write_faults: u64,
    calls: NameCalls,
}

impl Named {
    /// A name that isn't there, with no fault and no call.
    fn unknown(alloc: Global) -> Named
        ensures text { result.text ≡ None }
        ensures reads { result.read_faults ≡ 0 }
        ensures writes { result.write_faults ≡ 0 }
        ensures calls { result.calls ≡ no_calls }
    {
        Named {
            text: None,
            read_faults: 0,
            write_faults: 0,
            calls: NameCalls::none(alloc),
        }
    }
}

/// Sets what is kept of a name, which takes memory.
fn set_named(
    alloc: Global,
    names: &mut BTreeMap<String, Named>,
    name: &str,
    value: Named,
) -> Result<(), Memory>
    ensures ok { OnOk result
        (SetsName (get_by_text names.old) (get_by_text names.new) name.now value) }
    ensures err { OnErr result (SameNames (get_by_text names.old) (get_by_text names.new)) }
{
    let Ok(key) = String::from_str(alloc, name) else {
        return Err(Memory);
    };
    match names.insert(key, value) {
        Ok(_) => Ok(()),
        Err(_) => Err(Memory),
    }
}

/// Sets what is kept of a name that is known, which takes none.
fn replace_named(names: &mut BTreeMap<String, Named>, name: &str, value: Named)
    requires { IsSome (get_by_text names.old name.now) }
    ensures { SetsName (get_by_text names.old) (get_by_text names.new) name.now value }
{
    if let Some(slot) = names.get_mut(name) {
        *slot = value;
    }
}

/// Takes out what is kept of a name that is known. It stays known, for what is put back.
fn take_named(alloc: Global, names: &mut BTreeMap<String, Named>, name: &str) -> Named
    requires { IsSome (get_by_text names.old name.now) }
    ensures was { get_by_text names.old name.now ≡ Some result }
    ensures known { IsSome (get_by_text names.new name.now) }
    ensures others { SameOthers (get_by_text names.old) (get_by_text names.new) name.now }
{
    let blank = Named::unknown(alloc);
    match names.get_mut(name) {
        Some(slot) => mem::replace(slot, blank),
        None => blank,
    }
}

/// Keeps something of a name. It takes memory where nothing is kept of it yet.
pub(crate) fn keep_name(
    alloc: Global,
    names: &mut BTreeMap<String, Named>,
    name: &str,
) -> Result<(), Memory>
    ensures ok { OnOk result (IsSome (get_by_text names.new name.now)) }
    ensures err { OnErr result (get_by_text names.old name.now ≡ None) }
    ensures texts { SameTexts (get_by_text names.old) (get_by_text names.new) }
    ensures faults { SameFaults (get_by_text names.old) (get_by_text names.new) }
    ensures calls { SameCalls (get_by_text names.old) (get_by_text names.new) }
{
    if names.contains_key(name) {
        return Ok(());
    }
    set_named(alloc, names, name, Named::unknown(alloc))
}

/// A name's text, if it is there.
pub(crate) fn text_of<'a>(names: &'a BTreeMap<String, Named>, name: &str) -> Option<&'a [u8]>
    ensures { option_map (λ text. text.now) result ≡ text_at (get_by_text names.now) name.now }
{
    match &names.get(name)?.text {
        Some(text) => Some(text.as_slice()),
        None => None,
    }
}

/// The text of a name that opens: it is there, and the next call that opens it doesn't fail.
pub(crate) fn text_to_open<'a>(names: &'a BTreeMap<String, Named>, name: &str) -> Option<&'a [u8]>
    ensures some { IfSome result (λ text.
        text_at (get_by_text names.now) name.now ≡ Some text.now) }
    ensures fails { FailsToOpen (calls_at (get_by_text names.now) name.now) → result ≡ None }
    ensures none { result ≡ None → (text_at (get_by_text names.now) name.now ≡ None)
        ⊎ FailsToOpen (calls_at (get_by_text names.now) name.now) }
{
    let named = names.get(name)?;
    if named.calls.fails_to_open() {
        return None;
    }
    match &named.text {
        Some(text) => Some(text.as_slice()),
        None => None,
    }
}

/// Whether the next call that makes a name fails.
pub(crate) fn fails_to_create(names: &BTreeMap<String, Named>, name: &str) -> bool
    ensures { IsTrue result ↔ FailsToCreate (calls_at (get_by_text names.now) name.now) }
{
    match names.get(name) {
        Some(named) => named.calls.fails_to_create(),
        None => false,
    }
}

/// The calls that fail on each source of a name.
pub(crate) fn failing_fetches<'a>(names: &'a BTreeMap<String, Named>, name: &str) -> &'a [u64]
    ensures { result.now ≡ (calls_at (get_by_text names.now) name.now).failing_fetches }
{
    match names.get(name) {
        Some(named) => named.calls.failing_fetches(),
        None => &[],
    }
}

/// The calls that fail on each sink of a name.
pub(crate) fn failing_gives<'a>(names: &'a BTreeMap<String, Named>, name: &str) -> &'a [u64]
    ensures { result.now ≡ (calls_at (get_by_text names.now) name.now).failing_gives }
{
    match names.get(name) {
        Some(named) => named.calls.failing_gives(),
        None => &[],
    }
}

/// Sets a name's text, which takes memory where nothing is kept of the name.
pub(crate) fn set_text(
    alloc: Global,
    names: &mut BTreeMap<String, Named>,
    name: &str,
    bytes: Vec<u8>,
) -> Result<(), Memory>
    ensures ok { OnOk result (text_at (get_by_text names.new)
        ≡ with_text name.now bytes.items (text_at (get_by_text names.old))) }
    ensures err { OnErr result (SameTexts (get_by_text names.old) (get_by_text names.new)) }
    ensures faults { SameFaults (get_by_text names.old) (get_by_text names.new) }
    ensures calls { SameCalls (get_by_text names.old) (get_by_text names.new) }
{
    keep_name(alloc, names, name)?;
    put_text(alloc, names, name, bytes);
    Ok(())
}

/// Sets the text of a name of which something is kept.
pub(crate) fn put_text(
    alloc: Global,
    names: &mut BTreeMap<String, Named>,
    name: &str,
    bytes: Vec<u8>,
)
    requires { IsSome (get_by_text names.old name.now) }
    ensures text { text_at (get_by_text names.new)
        ≡ with_text name.now bytes.items (text_at (get_by_text names.old)) }
    ensures faults { SameFaults (get_by_text names.old) (get_by_text names.new) }
    ensures calls { SameCalls (get_by_text names.old) (get_by_text names.new) }
    ensures known { IsSome (get_by_text names.new name.now) }
{
    let mut named = take_named(alloc, names, name);
    named.text = Some(bytes);
    replace_named(names, name, named);
}

/// Counts a failed read of a name of which something is kept, where there was one.
pub(crate) fn count_read(
    alloc: Global,
    names: &mut BTreeMap<String, Named>,
    name: &str,
    has_failed: bool,
)
    requires { IsSome (get_by_text names.old name.now) }
    ensures texts { SameTexts (get_by_text names.old) (get_by_text names.new) }
    ensures reads { read_faults_at (get_by_text names.new)
        ≡ counted (read_faults_at (get_by_text names.old)) name.now has_failed }
    ensures writes { write_faults_at (get_by_text names.new)
        ≡ write_faults_at (get_by_text names.old) }
    ensures calls { SameCalls (get_by_text names.old) (get_by_text names.new) }
    ensures known { IsSome (get_by_text names.new name.now) }
{
    let mut named = take_named(alloc, names, name);
    named.read_faults = raised_if(has_failed, named.read_faults);
    replace_named(names, name, named);
}

/// Counts a failed write of a name of which something is kept, where there was one.
pub(crate) fn count_write(
    alloc: Global,
    names: &mut BTreeMap<String, Named>,
    name: &str,
    has_failed: bool,
)
    requires { IsSome (get_by_text names.old name.now) }
    ensures texts { SameTexts (get_by_text names.old) (get_by_text names.new) }
    ensures reads { read_faults_at (get_by_text names.new)
        ≡ read_faults_at (get_by_text names.old) }
    ensures writes { write_faults_at (get_by_text names.new)
        ≡ counted (write_faults_at (get_by_text names.old)) name.now has_failed }
    ensures calls { SameCalls (get_by_text names.old) (get_by_text names.new) }
    ensures known { IsSome (get_by_text names.new name.now) }
{
    let mut named = take_named(alloc, names, name);
    named.write_faults = raised_if(has_failed, named.write_faults);
    replace_named(names, name, named);
}

/// Counts one more call that opened a name, or failed to.
pub(crate) fn count_open(alloc: Global, names: &mut BTreeMap<String, Named>, name: &str)
    requires { IsSome (get_by_text names.old name.now) }
    ensures texts { SameTexts (get_by_text names.old) (get_by_text names.new) }
    ensures faults { SameFaults (get_by_text names.old) (get_by_text names.new) }
    ensures calls { calls_at (get_by_text names.new) ≡ with_calls name.now
        (opened_again (calls_at (get_by_text names.old) name.now))
        (calls_at (get_by_text names.old)) }
    ensures known { IsSome (get_by_text names.new name.now) }
{
    let mut named = take_named(alloc, names, name);
    named.calls.count_open();
    replace_named(names, name, named);
}

/// Counts one more call that made a name, or failed to.
pub(crate) fn count_create(alloc: Global, names: &mut BTreeMap<String, Named>, name: &str)
    requires { IsSome (get_by_text names.old name.now) }
    ensures texts { SameTexts (get_by_text names.old) (get_by_text names.new) }
    ensures faults { SameFaults (get_by_text names.old) (get_by_text names.new) }
    ensures calls { calls_at (get_by_text names.new) ≡ with_calls name.now
        (created_again (calls_at (get_by_text names.old) name.now))
        (calls_at (get_by_text names.old)) }
    ensures known { IsSome (get_by_text names.new name.now) }
{
    let mut named = take_named(alloc, names, name);
    named.calls.count_create();
    replace_named(names, name, named);
}

/// Lists a call that fails, of a name of which something is kept.
pub(crate) fn add_failing(
    alloc: Global,
    names: &mut BTreeMap<String, Named>,
    what: Fail,
    name: &str,
    number: u64,
) -> Result<(), Memory>
    requires { IsSome (get_by_text names.old name.now) }
    ensures texts { SameTexts (get_by_text names.old) (get_by_text names.new) }
    ensures faults { SameFaults (get_by_text names.old) (get_by_text names.new) }
    ensures ok { OnOk result (calls_at (get_by_text names.new) ≡ with_calls name.now
        (with_failing what number (calls_at (get_by_text names.old) name.now))
        (calls_at (get_by_text names.old))) }
    ensures err { OnErr result (SameCalls (get_by_text names.old) (get_by_text names.new)) }
{
    let mut named = take_named(alloc, names, name);
    let added = named.calls.add_failing(what, number);
    replace_named(names, name, named);
    added
}
