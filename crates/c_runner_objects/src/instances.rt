//! Calls of primitives on instances and their attributes.
ghost use Rattle.std.specs.Prelude.{◌≡◌, ℕ, ◌+◌, ◌^◌, ◌<◌, true, Option, Some, None, length, map, IfOk, MatchOption};
ghost use Rattle.std.specs.Option.{option_map, option_copied};
ghost use Rattle.c_core.specs.declared.primitive.Primitive.TheVariants as prim;
ghost use Rattle.c_core.specs.declared.primitive.InstancePrim.TheVariants as instance_prim;
ghost use Rattle.c_core.specs.declared.primitive.AttrPrim.TheVariants as attr_prim;
ghost use Rattle.c_core.specs.Step as machine_step;
ghost use Rattle.c_core.specs.Step.{primitive_step};
ghost use Rattle.c_runner_deeds.specs.Deeds.{done_by};
ghost use Rattle.c_runner_objects.specs.Instances as spec;
ghost use Rattle.c_runner_objects.specs.Instances.{HoldsInstance, attributes_at, takes_kind, held_read, attribute_done, attribute_put, attribute_written};
ghost use Rattle.c_runner_deeds.specs.States.{Rest, Follows, Leads, IsSmall, frame_of, held_of, state_of, seen};
ghost use Rattle.c_runner_deeds.specs.Parts.{class_of};
ghost use Rattle.cell_heap.specs.Contents.{number_of, word_of};
ghost use Rattle.cell_heap.specs.Numbered.{numbered};
ghost use Rattle.cell_heap.specs.Contents.{name_of};
ghost use Rattle.cell_heap.specs.Ours.{IsOurs, AreOurs};
ghost use Rattle.c_runner_deeds.specs.Ours.{IsOurWord};
ghost use Rattle.c_runner_objects.specs.Instances.{held_refs};
ghost use Rattle.c_runner_deeds.specs.Deeds.{IsOurDeed};
ghost use Rattle.c_core.specs.Cells.{Cells};
ghost use Rattle.cell_heap.specs.Placed.{Placed};

use crate::items::lent;
use c_core::{AttrPrim, CArg, CClass, Code, Fault, InstancePrim, Kind};
use c_runner_deeds::{Deed, Ending, State, error_of, give_word, unset, written_number};
use cell_heap::{Content, Dead, Key, Word};
use std::alloc::Global;
use value_core::{ExcClass, Memory, Name, Text};

/// What is to be written to an attribute: the cell of the instance, the place of the attribute, and the word.
#[derive(Drop)]
pub(crate) struct AttributeWrite {
    pub key: Key,
    pub place: usize,
    pub word: Word,
}

/// Calls a primitive on instances, whose first argument may name the class of a number.
pub fn call_instance(
    state: &mut State,
    alloc: Global,
    code: &Code,
    operation: InstancePrim,
    class: Option<usize>,
    target: Option<usize>,
    args: &[CArg],
) -> Result<Option<Ending>, Memory>
    requires small { IsSmall (seen state.old) }
    requires place { state.old.top.place + 1 < 2 ^ 64 }
    requires class { class ≡ class_of code.now args.now }
    ensures { IfOk result (λ ending. Leads
        (λ s. primitive_step true s code.now target args.now (prim.Instance operation)) ending (seen state.old) (seen state.new)) }
{
    match operation {
        InstancePrim::New => new_instance(state, alloc, code, class, target, args),
    }
}

/// Makes an instance of the class of a number, with all attributes unset.
fn new_instance(
    state: &mut State,
    alloc: Global,
    code: &Code,
    class: Option<usize>,
    target: Option<usize>,
    args: &[CArg],
) -> Result<Option<Ending>, Memory>
    requires small { IsSmall (seen state.old) }
    requires place { state.old.top.place + 1 < 2 ^ 64 }
    requires class { class ≡ class_of code.now args.now }
    ensures { IfOk result (λ ending. Leads
        (λ s. primitive_step true s code.now target args.now (prim.Instance instance_prim.New)) ending (seen state.old) (seen state.new)) }
{
    if args.len() != 1 {
        return Ok(Some(Ending::Fault(Fault::Kind)));
    }
    let Some(number) = class else {
        return Ok(Some(Ending::Fault(Fault::Kind)));
    };
    let Some(declared) = code.classes.get(number) else {
        return Ok(Some(Ending::Fault(Fault::Kind)));
    };
    let attributes = unset(alloc, declared.attrs.as_slice())?;
    state.make_cell(target, Content::Inst(number, attributes))
}

/// Calls a primitive on the attributes of an instance.
pub fn call_attribute(
    state: &mut State,
    alloc: Global,
    code: &Code,
    operation: AttrPrim,
    target: Option<usize>,
    args: &[CArg],
) -> Result<Option<Ending>, Memory>
    requires small { IsSmall (seen state.old) }
    requires place { state.old.top.place + 1 < 2 ^ 64 }
    ensures { IfOk result (λ ending. Follows
        (λ s. primitive_step true s code.now target args.now (prim.Attr operation)) ending (seen state.old) (seen state.new)) }
{
    match operation {
        AttrPrim::Get => {
            let deed = attribute_deed(state, alloc, code, target, args)?;
            state.perform_deed(target, deed)
        }
        AttrPrim::GetBorrow => {
            let deed = attribute_deed(state, alloc, code, target, args)?;
            state.perform_deed(target, lent(deed))
        }
        AttrPrim::Set => Ok(set_attribute(state, code, target, args)),
    }
}

/// Answers what an attribute holds.
fn attribute_deed(
    state: &State,
    alloc: Global,
    code: &Code,
    target: Option<usize>,
    args: &[CArg],
) -> Result<Result<Deed, Fault>, Memory>
    ensures done { IfOk result (λ deed. done_by deed
        ≡ attribute_done code.now (frame_of state.now.top) target (numbered state.now.cells) (map word_of state.now.top.vars) args.now) }
    ensures ours { IfOk result (λ deed. IfOk deed (IsOurDeed state.now.cells)) }
{
    let found = match state.instance_and_place(args) {
        Err(fault) => return Ok(Err(fault)),
        Ok(found) => found,
    };
    let Some(slot) = slot_at(code, found.1, found.3) else {
        return Ok(Err(Fault::Kind));
    };
    if !takes_kind(state, code, target, slot.2.1) {
        return Ok(Err(Fault::Kind));
    }
    read(alloc, slot.1, slot.2, found.2.get(slot.0))
}

/// Whether a line may write a word of a kind to its target, if it has one.
fn takes_kind(state: &State, code: &Code, target: Option<usize>, kind: Kind) -> bool
    ensures { result ≡ takes_kind code.now (frame_of state.now.top) target kind }
{
    match target {
        None => true,
        Some(x) => state.kind_of_variable(code, x) == Some(kind),
    }
}

/// Writes an attribute of an instance, which takes over the reference of what is put there, and gives up what stood there.
fn set_attribute(
    state: &mut State,
    code: &Code,
    target: Option<usize>,
    args: &[CArg],
) -> Option<Ending>
    requires { state.old.top.place + 1 < 2 ^ 64 }
    ensures { Follows (λ s. primitive_step true s code.now target args.now (prim.Attr attr_prim.Set)) result (seen state.old) (seen state.new) }
{
    match attribute_write(state, code, args) {
        Err(fault) => Some(Ending::Fault(fault)),
        Ok(found) => put_attribute(state, target, found.key, found.place, found.word),
    }
}

/// The instance that the first argument is, the place of the attribute that the second one means, and the word that the
/// third and last one gives away.
fn attribute_write(state: &State, code: &Code, args: &[CArg]) -> Result<AttributeWrite, Fault>
    ensures found { (rest : Rest) (target : Option ℕ) →
        (let s = state_of rest (seen state.now) in
        primitive_step true s code.now target args.now (prim.Attr attr_prim.Set) ≡ attribute_written target result s) }
    ensures instance { IfOk result (λ found. HoldsInstance (numbered state.now.cells) (number_of found.key)) }
    ensures within { IfOk result (λ found. found.place < length (attributes_at (numbered state.now.cells) (number_of found.key))) }
    ensures ours { IfOk result (λ found. IsOurs state.now.cells (name_of found.key)) }
    ensures word { IfOk result (λ found. IsOurWord state.now.cells found.word) }
{
    let found = match state.instance_argument(args.first()) {
        Err(fault) => return Err(fault),
        Ok(found) => found,
    };
    let number = match written_number(args.get(1)) {
        Err(fault) => return Err(fault),
        Ok(number) => number,
    };
    let Some(slot) = slot_at(code, found.1, number) else {
        return Err(Fault::Kind);
    };
    let Some(argument) = args.get(2) else {
        return Err(Fault::Kind);
    };
    let word = match state.stolen_word(slot.2.1, argument) {
        Err(fault) => return Err(fault),
        Ok(word) => word,
    };
    if args.len() != 3 {
        return Err(Fault::Kind);
    }
    if slot.0 >= found.2.len() {
        return Err(Fault::Kind);
    }
    Ok(AttributeWrite {
        key: found.0,
        place: slot.0,
        word,
    })
}

/// Writes a word that the frame owns to a place of the instance that a cell holds, and gives up the one that stood there.
fn put_attribute(
    state: &mut State,
    target: Option<usize>,
    key: Key,
    place: usize,
    word: Word,
) -> Option<Ending>
    requires place { state.old.top.place + 1 < 2 ^ 64 }
    requires instance { HoldsInstance (numbered state.old.cells) (number_of key) }
    requires within { place < length (attributes_at (numbered state.old.cells) (number_of key)) }
    requires ours { IsOurs state.old.cells (name_of key) }
    requires word { IsOurWord state.old.cells word }
    ensures { Follows (attribute_put target key place word) result (seen state.old) (seen state.new) }
{
    match state.cells.set_word(key, place, Some(word)) {
        // The cell is there, as was tested first.
        Err(Dead) => Some(Ending::Fault(Fault::Dead)),
        Ok(held) => {
            state.top.lose(word);
            give_word(&mut state.cells, held);
            state.top.set_target(target, Word::PyNone);
            state.top.place += 1;
            None
        }
    }
}

/// The slot of a number in the class of a number, with its place and its class.
fn slot_at(code: &Code, class: usize, number: i64) -> Option<(usize, &CClass, &(Name, Kind))>
    ensures { MatchOption result
        (spec.slot_at code.now class number ≡ None)
        (λ slot. spec.slot_at code.now class number ≡ Some (slot.0, (slot.1.now, slot.2.now))) }
{
    match usize::try_from(number) {
        Err(_) => None,
        Ok(place) => slot_in(code.classes.get(class), place),
    }
}

/// The slot at a place of a class.
fn slot_in(class: Option<&CClass>, place: usize) -> Option<(usize, &CClass, &(Name, Kind))>
    ensures { MatchOption result
        (spec.slot_in (option_copied class.entry) place ≡ None)
        (λ slot. spec.slot_in (option_copied class.entry) place ≡ Some (slot.0, (slot.1.now, slot.2.now))) }
{
    match class {
        None => None,
        Some(class) => match class.attrs.get(place) {
            None => None,
            Some(slot) => Some((place, class, slot)),
        },
    }
}

/// Answers what a slot of a class holds in an instance, and fails where it is unset.
fn read(
    alloc: Global,
    class: &CClass,
    slot: &(Name, Kind),
    held: Option<&Option<Word>>,
) -> Result<Result<Deed, Fault>, Memory>
    ensures done { IfOk result (λ deed. done_by deed ≡ held_read class.now slot.now (option_map held_of (option_copied held.entry))) }
    ensures ours { (cells : Cells Placed) → AreOurs cells (held_refs (option_copied held.entry)) → IfOk result (λ deed. IfOk deed (IsOurDeed cells)) }
{
    let Some(held) = held else {
        return Ok(Err(Fault::Kind));
    };
    match *held {
        Some(word) => Ok(Ok(Deed::Shares(word))),
        None => {
            let text = undefined(alloc, slot.0.as_str(), class.name.as_str())?;
            Ok(Ok(Deed::Fails(error_of(slot.1), ExcClass::AttributeError, text)))
        }
    }
}

/// What the exception says that a read of an unset attribute makes.
fn undefined(alloc: Global, name: &str, class: &str) -> Result<Text, Memory>
    ensures { IfOk result (λ text. text ≡ (machine_step.undefined name.now class.now).text) }
{
    Ok(Text::from_string(format!(in alloc; "attribute '{name}' of '{class}' undefined")?))
}
