//! Files with the offsets of their texts.

mod files;
mod links;

use crate::{NameFault, Sort, resolve};
use files::{numbers_anew, output_of, two_sorts};
use links::links_of;
use std::test::Fail;
use tower_syntax::{Link, Named, NamedItem, Target};

/// The link of the second item, where it is an output, or the fault.
fn told(answer: Result<Named, NameFault>) -> Result<Option<Link>, NameFault> {
    let named = answer?;
    match named.items.get(1) {
        Some(NamedItem::Output { channel, .. }) => Ok(Some(*channel)),
        _ => Ok(None),
    }
}

#[test]
fn resolves_outputs(rt: HostRuntime) -> Result<(), Fail> {
    let link = Link {
        at: 34,
        target: Target::Channel(0),
    };
    let kind = NameFault::Kind {
        at: 34,
        want: Sort::Channel,
        found: Sort::Output,
    };
    for (channel, used, answer) in [
        (b'c', b'c', Ok(Some(link))),
        (b'c', b'd', Err(NameFault::Unknown { at: 34 })),
        (b'c', b'o', Err(kind)),
        (b'o', b'o', Err(NameFault::Twice { at: 32, first: 18 })),
    ] {
        let raw = output_of(rt.alloc(), channel, used)?;
        assert_eq!(rt; told(resolve(rt.alloc(), &raw)), answer);
    }
    Ok(())
}

#[test]
fn tells_the_first_fault(rt: HostRuntime) -> Result<(), Fail> {
    let raw = two_sorts(rt.alloc())?;
    let fault = NameFault::Twice { at: 34, first: 17 };
    assert_eq!(rt; told(resolve(rt.alloc(), &raw)), Err(fault));
    Ok(())
}

/// What the uses of a file are linked to, in text order.
const NUMBERS_ANEW: [(u32, Target); 20] = [
    (52, Target::Record(0)),
    (82, Target::Record(1)),
    (120, Target::Channel(0)),
    (133, Target::Channel(0)),
    (149, Target::Channel(1)),
    (182, Target::State(0)),
    (190, Target::State(0)),
    (192, Target::Binder(1)),
    (202, Target::Emitter(1)),
    (204, Target::Param),
    (227, Target::State(0)),
    (235, Target::State(0)),
    (237, Target::Binder(0)),
    (253, Target::Channel(1)),
    (266, Target::Channel(1)),
    (289, Target::Emitter(0)),
    (291, Target::Param),
    (345, Target::Channel(0)),
    (365, Target::State(1)),
    (367, Target::State(0)),
];

#[test]
fn numbers_begin_anew(rt: HostRuntime) -> Result<(), Fail> {
    let raw = numbers_anew(rt.alloc())?;
    let named = resolve(rt.alloc(), &raw)?;
    let links = links_of(rt.alloc(), &named)?;
    let mut found = links.as_slice().iter();
    for (at, target) in NUMBERS_ANEW {
        assert_eq!(rt; found.next().copied(), Some(Link { at, target }));
    }
    assert!(rt; found.next().is_none());
    Ok(())
}
