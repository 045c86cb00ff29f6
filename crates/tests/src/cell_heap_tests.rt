//! Releases of chains that are longer than any stack is deep, and keys of cells that are gone or that another heap made.
ghost use Rattle.std.specs.Prelude.{◌≡◌, ◌+◌, ◌<◌, ◌≤◌, length, None};
ghost use Rattle.cell_heap.specs.Contents.{name_of};
ghost use Rattle.cell_heap.specs.Placed.{held_at};

use crate::case::check;
use cell_heap::{Content, Heap, Key, Pairs, Word};
use std::alloc::Global;
use std::test::Fail;
use value_core::{Many, Memory};

fn make(heap: &mut Heap, content: Content) -> Result<Key, Memory>
    requires { length heap.old < 4000000000 }
    ensures { length heap.new ≤ length heap.old + 1 }
{
    heap.make(content)
}

// What a chain is made of.
#[derive(Clone, Copy, Debug)]
enum Link {
    List,
    Instance,
}

// A link that holds one word.
fn holding(alloc: Global, link: Link, word: Word) -> Result<Content, Memory> {
    match link {
        Link::List => Ok(Content::List(Many::from_slice(alloc, &[word])?)),
        Link::Instance => Ok(Content::Inst(0, Many::from_slice(alloc, &[Some(word)])?)),
    }
}

// A chain of so many links, each of which holds the one before it, and the first of which holds None: the last one's key.
fn chain(alloc: Global, heap: &mut Heap, link: Link, count: u32) -> Result<Key, Fail>
    requires empty { length heap.old ≡ 0 }
    requires small { count ≤ 1000000 }
    ensures { length heap.new ≤ count + 1 }
{
    let mut last = make(heap, holding(alloc, link, Word::PyNone)?)?;
    'link: for _link in 0..count {
        last = make(heap, holding(alloc, link, Word::Cell(last))?)?;
    }
    Ok(last)
}

#[test]
fn a_chain_of_any_length_is_released_at_once(rt: HostRuntime) -> Result<(), Fail> {
    for link in &[Link::List, Link::Instance] {
        let mut heap = Heap::new(rt.alloc());
        let last = chain(rt.alloc(), &mut heap, *link, 999_999)?;
        let is_given = heap.give(last).is_ok();
        check(&rt, link, is_given && heap.keys(rt.alloc())?.is_empty());
    }
    Ok(())
}

#[test]
fn a_key_stays_dead_after_its_slot_is_used_again(rt: HostRuntime) -> Result<(), Fail> {
    let mut heap = Heap::new(rt.alloc());
    let first = make(&mut heap, Content::Int(1))?;
    let is_given = heap.give(first).is_ok();
    let second = make(&mut heap, Content::Int(2))?;
    let is_gone = heap.count(first).is_err() && heap.give(first).is_err();
    check(
        &rt,
        &"dead",
        is_given && is_gone && heap.count(second) == Ok(1),
    );
    Ok(())
}

// Three numbers, the last one with serial 2: its key. In the order of making they lie in three slots, and where the first is given
// up before the last is made, the last lies in the slot of the first.
fn three(heap: &mut Heap, is_first_given: bool) -> Result<Key, Fail>
    requires { length heap.old ≡ 0 }
    ensures { length heap.new ≤ 3 }
{
    let first = make(heap, Content::Int(5))?;
    make(heap, Content::Int(6))?;
    if is_first_given {
        let _given = heap.give(first);
    }
    Ok(make(heap, Content::Int(7))?)
}

// The key of serial 2 in another slot than the one that three numbers give where none goes.
fn foreign(alloc: Global) -> Result<Key, Fail> {
    let mut other = Heap::new(alloc);
    three(&mut other, true)
}

// A call by a key.
#[derive(Clone, Copy, Debug)]
enum Call {
    Take,
    Give,
    Content,
    Count,
    WordAt,
    SetWord,
    PushWord,
    PopWord,
    FindIn,
    FindWord,
    Push,
    TakeOut,
}

const CALLS: [Call; 12] = [
    Call::Take,
    Call::Give,
    Call::Content,
    Call::Count,
    Call::WordAt,
    Call::SetWord,
    Call::PushWord,
    Call::PopWord,
    Call::FindIn,
    Call::FindWord,
    Call::Push,
    Call::TakeOut,
];

// Whether a call by a key that is not in the map is refused.
fn is_refused(heap: &mut Heap, call: Call, key: Key, own: Key) -> bool
    requires { held_at heap.old (name_of key) ≡ None }
{
    match call {
        Call::Take => heap.take(key).is_err(),
        Call::Give => heap.give(key).is_err(),
        Call::Content => heap.content(key).is_err(),
        Call::Count => heap.count(key).is_err(),
        Call::WordAt => heap.word_at(key, 0).is_err(),
        Call::SetWord => heap.set_word(key, 0, Some(Word::PyNone)).is_err(),
        Call::PushWord => heap.push_word(key, Word::PyNone).is_err(),
        Call::PopWord => heap.pop_word(key).is_err(),
        Call::FindIn => heap.dict_find(key, Word::PyTrue).is_err(),
        Call::FindWord => heap.dict_find(own, Word::Cell(key)).is_err(),
        Call::Push => heap.dict_push(key, (Word::PyTrue, Word::PyNone)).is_err(),
        Call::TakeOut => heap.dict_take(key, 0).is_err(),
    }
}

#[test]
fn a_key_of_another_heap_is_dead_in_each_call(rt: HostRuntime) -> Result<(), Fail> {
    let key = foreign(rt.alloc())?;
    for call in &CALLS {
        let mut heap = Heap::new(rt.alloc());
        let own = three(&mut heap, false)?;
        if heap.content(key).is_ok() {
            check(&rt, call, false);
        } else {
            let is_refused = is_refused(&mut heap, *call, key, own);
            check(&rt, call, is_refused && heap.count(own) == Ok(1));
        }
    }
    Ok(())
}

#[test]
fn a_stored_key_of_another_heap_names_nothing(rt: HostRuntime) -> Result<(), Fail> {
    let key = foreign(rt.alloc())?;
    let mut heap = Heap::new(rt.alloc());
    let own = three(&mut heap, false)?;
    let list = make(&mut heap, holding(rt.alloc(), Link::List, Word::Cell(key))?)?;
    let is_given = heap.give(list).is_ok();
    check(&rt, &"passed over", is_given && heap.count(own) == Ok(1));
    let pairs = Many::from_slice(rt.alloc(), &[(Word::Cell(key), Word::PyNone)])?;
    let dict = make(
        &mut heap,
        Content::Dict(Pairs::from_pairs(rt.alloc(), pairs)?),
    )?;
    check(
        &rt,
        &"no key",
        heap.dict_find(dict, Word::Cell(own)) == Ok(None),
    );
    let pairs = Many::from_slice(rt.alloc(), &[(Word::Cell(own), Word::PyNone)])?;
    let dict = make(
        &mut heap,
        Content::Dict(Pairs::from_pairs(rt.alloc(), pairs)?),
    )?;
    check(
        &rt,
        &"a key",
        heap.dict_find(dict, Word::Cell(own)) == Ok(Some(0)),
    );
    Ok(())
}

#[test]
fn pairs_are_taken_over_as_they_are(rt: HostRuntime) -> Result<(), Fail> {
    let none = Pairs::from_pairs(rt.alloc(), Many::new(rt.alloc()))?;
    check(&rt, &"none", none.pairs().is_empty());
    let given = [
        (Word::PyTrue, Word::Short(2)),
        (Word::PyNone, Word::Short(1)),
        (Word::PyTrue, Word::Short(0)),
    ];
    let taken = Pairs::from_pairs(rt.alloc(), Many::from_slice(rt.alloc(), &given)?)?;
    check(&rt, &"some", taken.pairs().as_slice() == &given[..]);
    Ok(())
}
