//! The calls, with what is shown of each.

use crate::shown::Shown;

pub const CALLS: [(&str, Shown); 46] = [
    // Marks, outputs and the states at the end.
    ("towerc run clock.tower --record clock.record", Shown::Marks),
    ("towerc run none.tower --record none.record", Shown::Whole),
    ("towerc run two.tower --record two.record", Shown::Marks),
    (
        "towerc run two.tower --record two.record --choices two.choices",
        Shown::Marks,
    ),
    ("towerc run inv.tower --record inv.record", Shown::Marks),
    (
        "towerc run inv.tower --record inv.record --choices inv.choices",
        Shown::Marks,
    ),
    (
        "towerc run inv.tower --record inv.record --choices inv3.choices",
        Shown::Marks,
    ),
    (
        "towerc run share.tower --record share.record --choices share.choices",
        Shown::Marks,
    ),
    ("towerc run dia.tower --record dia.record", Shown::Marks),
    ("towerc run diap.tower --record diap.record", Shown::Marks),
    (
        "towerc run emitters.tower --record emitters.record",
        Shown::Marks,
    ),
    ("towerc run nav.tower --record nav.record", Shown::Marks),
    (
        "towerc run late.tower --record late.record --choices late.choices",
        Shown::Marks,
    ),
    (
        "towerc run burst.tower --record burst.record --choices burst.choices",
        Shown::Marks,
    ),
    ("towerc run burst.tower --record burst.record", Shown::Marks),
    (
        "towerc run flight.tower --record flight.record",
        Shown::Number,
    ),
    (
        "towerc run flight.tower --record flight.record --steps 16722",
        Shown::Number,
    ),
    // Rules for turns.
    (
        "towerc run inv.tower --record inv.record --choices inv.choices --policy ceiling",
        Shown::Marks,
    ),
    (
        "towerc run inv.tower --record inv.record --choices inv.choices --policy fixed",
        Shown::Marks,
    ),
    (
        "towerc run share.tower --record cores.record --choices cores.choices --cores 2",
        Shown::Marks,
    ),
    (
        "towerc run share.tower --record cores.record --choices cores.choices",
        Shown::Marks,
    ),
    (
        "towerc run inv.tower --record inv.record --policy fair",
        Shown::Whole,
    ),
    (
        "towerc run inv.tower --record inv.record --cores 0",
        Shown::Whole,
    ),
    (
        "towerc run inv.tower --record inv.record --cores 65",
        Shown::Whole,
    ),
    (
        "towerc run inv.tower --record inv.record --cores 2 --policy fixed",
        Shown::Whole,
    ),
    // Limits.
    (
        "towerc run clock.tower --record clock.record --steps 0",
        Shown::Whole,
    ),
    (
        "towerc run clock.tower --record clock.record --steps 1",
        Shown::Whole,
    ),
    (
        "towerc run clock.tower --record clock.record --steps 432",
        Shown::Marks,
    ),
    // Inputs that have a fault, or that are not there.
    (
        "towerc run flight.tower --record flight_name.record",
        Shown::Whole,
    ),
    (
        "towerc run share.tower --record share_value.record",
        Shown::Whole,
    ),
    (
        "towerc run clock.tower --record clock.record --choices none.record",
        Shown::Marks,
    ),
    (
        "towerc run clock.tower --record clock.record --choices go.choices",
        Shown::Whole,
    ),
    ("towerc run clock.tower --record absent", Shown::Whole),
    ("towerc run open.tower --record absent", Shown::Whole),
    (
        "towerc run clock.tower --record clock.tower --choices absent",
        Shown::Whole,
    ),
    // Words.
    ("towerc run clock.tower", Shown::Whole),
    ("towerc check clock.tower --steps 5", Shown::Whole),
    (
        "towerc run clock.tower --record clock.record --steps 007",
        Shown::Whole,
    ),
    (
        "towerc run clock.tower --record clock.record --steps 1000000001",
        Shown::Whole,
    ),
    ("towerc fly clock.tower", Shown::Whole),
    ("towerc", Shown::Whole),
    ("towerc --help", Shown::Whole),
    (
        "towerc run clock.tower --record clock.record --record clock.record",
        Shown::Whole,
    ),
    ("towerc run clock.tower --record", Shown::Whole),
    (
        "towerc run clock.tower --record clock.record --steps",
        Shown::Whole,
    ),
    (
        "towerc run clock.tower two.tower --record clock.record",
        Shown::Whole,
    ),
];
