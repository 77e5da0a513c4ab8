//! What is drawn for the number 7, by the published definition of the generator.
use crate::make_system;
use std::test::Fail;
use tower_syntax::{Choice, RawItem};

/// The first periods: their milliseconds and priorities.
const PERIODS: [(u32, u8); 4] = [(19, 58), (25, 63), (14, 108), (15, 117)];

/// The first choices.
const CHOICES: [Choice; 6] = [
    Choice::See(6, 1),
    Choice::See(14, 1),
    Choice::Ev(1),
    Choice::See(2, 1),
    Choice::See(0, 1),
    Choice::Ev(1),
];

#[test]
fn draws_of_seven(rt: HostRuntime) -> Result<(), Fail> {
    let made = make_system(rt.alloc(), 7)?;
    assert_eq!(rt; made.ticks, 100);
    assert_eq!(rt; made.raw.items.len(), 116);
    for (i, (drawn_ms, drawn_priority)) in PERIODS.iter().enumerate() {
        match made.raw.items.get(i) {
            Some(RawItem::Period { ms, priority, .. }) => {
                assert_eq!(rt; ms, drawn_ms);
                assert_eq!(rt; priority, drawn_priority);
            }
            _ => assert!(rt; false),
        }
    }
    assert_eq!(rt; made.choices.len(), 400);
    for (i, choice) in CHOICES.iter().enumerate() {
        assert!(rt; made.choices.get(i) == Some(choice));
    }
    assert!(rt; made.choices.get(399) == Some(&Choice::See(10, 1)));
    Ok(())
}
