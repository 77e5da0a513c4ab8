//! The answers of the top call, each with what it wrote.
ghost use Rattle.std.specs.Prelude.{◌≤◌};

use crate::{Status, tower};
use arch_checks::check;
use channel_graph::{reached, subscribers};
use std::alloc::{AllocError, Global};
use std::test::Fail;
use tower_io::{MemShelf, MemSink};
use tower_syntax::{Arch, Listener, On};
use tower_types::NoMemory;

const CLOCK: &str =
    "(tower clock (period beat 10 5)\n (monitor count (state n u32)\n  (handler tick beat (callback t (set n (+ n (u32 1)))))))\n";

/// A file with every kind of source, a record and an array.
const FLIGHT: &str =
    "(tower flight\n (record att (field roll i32) (field pitch i32))\n (init boot 250) (period fast 1 200) (period mid 5 150) (period slow 20 100)\n (signal gps att 180) (signal cmd i32 160)\n (channel rate i32) (channel pose att) (channel motor i32) (channel beat u8)\n (output pwm motor) (output radio beat)\n (monitor gyro (state raw i32)\n  (handler gyro_init boot (callback t (set raw (i32 100))))\n  (handler sample fast (emitter e rate 1)\n   (callback t (set raw (+ raw (cast i32 t))) (emit e raw))))\n (monitor fuse\n  (state now att) (state hist (array 4 i32)) (state pos (ix 4))\n  (handler on_rate rate\n   (callback w (set (at hist pos) w) (set pos (+ pos (ix 4 1)))))\n  (handler on_gps gps (callback p (copy now p)))\n  (handler publish mid (emitter e pose 1)\n   (callback t\n    (local sum i32)\n    (for i 4 (set sum (+ sum (at hist i))))\n    (set (get now roll) (/ sum (i32 4)))\n    (emit e now))))\n (monitor ctl (state goal i32)\n  (handler on_cmd cmd (callback v (set goal v)))\n  (handler steer pose (emitter e motor 1)\n   (callback p (emit e (- goal (get p roll))))))\n (monitor life (state n u8)\n  (handler alive slow (emitter e beat 1)\n   (callback t (set n (+ n (u8 1))) (emit e n)))))\n";

/// What it weighs.
const FLIGHT_CHECK: &str =
    "tower flight\nrecords 1 sources 6 channels 4 outputs 2 monitors 4 handlers 8\ncost boot 206\ncost fast 564\ncost mid 1070\ncost slow 432\ncost gps 312\ncost cmd 212\nmemory 952\ncode 2482\nok\n";

/// What `clock` weighs.
const CLOCK_CHECK: &str =
    "tower clock\nrecords 0 sources 1 channels 0 outputs 0 monitors 1 handlers 1\ncost beat 216\nmemory 132\ncode 216\nok\n";

/// Its listing.
const CLOCK_LISTING: &str =
    "tower-listing 1\nmonitors 1\nmonitor 1\noutputs 0\ntasks 1\ntask 5 1 4 0 12\nTAKE 0\nCALL 3\nJMP 0\nLOCK 0\nPUSH 0\nPUSH 0\nLDM 0 0 1\nPUSH 1\nBIN + u32\nSTM 0 0 1\nUNLOCK 0\nRET\nend\n";

/// The run of `clock` over 25 ticks, stopped before its first instruction, and before its second.
const NO_STEP: &str =
    "0 a\n0 a\n0 a\n0 a\n0 a\n0 a\n0 a\n0 a\n0 a\n0 a\nstate count n 0\ncount 0\nstopped\n";

const ONE_STEP: &str =
    "0 a\n0 a\n0 a\n0 a\n0 a\n0 a\n0 a\n0 a\n0 a\n0 a\n1 s beat\nstate count n 0\ncount 1\nstopped\n";

const ONE_STEP_COUNTED: &str =
    "0 a\n0 a\n0 a\n0 a\n0 a\n0 a\n0 a\n0 a\n0 a\n0 a\n1 s beat\nstate count n 0\ncount 1\nwaits 0\nstopped\n";

const ONE_STEP_ON_CORES: &str =
    "0 a\n0 a\n0 a\n0 a\n0 a\n0 a\n0 a\n0 a\n0 a\n0 a\n1 s beat\nstate count n 0\ncount 1\ncore 0 1\ncore 1 0\nstopped\n";

const USAGE: &str = "usage: towerc COMMAND FILE [OPTIONS]\n";

/// A shelf with these files, of which one is not closed, with records and choices, of which some are none.
fn shelf(alloc: Global, fails: &[u64]) -> Result<MemShelf, AllocError> {
    let mut files = Vec::new(alloc);
    for (name, text) in [
        ("clock", CLOCK),
        ("open", "(tower a"),
        ("ticks", "tick 25"),
        ("none", "tick 1\ntick 0"),
        ("no_choice", "go"),
    ] {
        files.push((
            String::from_str(alloc, name)?,
            Vec::from_slice(alloc, text.as_bytes())?,
        ))?;
    }
    Ok(MemShelf::new(files, Vec::from_slice(alloc, fails)?))
}

/// The words of a line.
fn words(alloc: Global, line: &str) -> Result<Vec<String>, AllocError> {
    let mut words = Vec::new(alloc);
    for word in line.split(' ') {
        if !word.is_empty() {
            words.push(String::from_str(alloc, word)?)?;
        }
    }
    Ok(words)
}

/// Each line of words with its status and what it writes on `out` and on `err`.
const ANSWERS: [(&str, Status, &str, &str); 40] = [
    ("towerc check clock", Status::Done, CLOCK_CHECK, ""),
    ("towerc compile clock", Status::Done, CLOCK_LISTING, ""),
    (
        "towerc compile open",
        Status::Refused,
        "",
        "refused: unclosed 0\n",
    ),
    ("towerc compile clock --steps 1", Status::Usage, "", USAGE),
    (
        "towerc check open",
        Status::Refused,
        "",
        "refused: unclosed 0\n",
    ),
    (
        "towerc check absent",
        Status::ReadFault,
        "",
        "cannot read absent\n",
    ),
    ("", Status::Usage, "", USAGE),
    ("towerc", Status::Usage, "", USAGE),
    ("towerc check", Status::Usage, "", USAGE),
    ("towerc check clock more", Status::Usage, "", USAGE),
    ("towerc check clock --steps 5", Status::Usage, "", USAGE),
    ("towerc check clock --steps", Status::Usage, "", USAGE),
    (
        "towerc check clock --record a --record b",
        Status::Usage,
        "",
        USAGE,
    ),
    ("towerc check clock --faster", Status::Usage, "", USAGE),
    ("towerc fly clock", Status::Usage, "", USAGE),
    ("towerc --help", Status::Usage, "", USAGE),
    ("towerc check -h", Status::Usage, "", USAGE),
    ("towerc help check", Status::Usage, "", USAGE),
    ("towerc check -- clock", Status::Done, CLOCK_CHECK, ""),
    (
        "towerc run clock --record ticks --steps 0",
        Status::Stopped,
        NO_STEP,
        "",
    ),
    (
        "towerc --steps=1 run --record ticks clock",
        Status::Stopped,
        ONE_STEP,
        "",
    ),
    (
        "towerc run clock --record ticks --steps 1 --policy ceiling",
        Status::Stopped,
        ONE_STEP_COUNTED,
        "",
    ),
    (
        "towerc run clock --record ticks --steps 1 --cores 2",
        Status::Stopped,
        ONE_STEP_ON_CORES,
        "",
    ),
    (
        "towerc run open --record absent",
        Status::Refused,
        "",
        "refused: unclosed 0\n",
    ),
    (
        "towerc run clock --record absent",
        Status::ReadFault,
        "",
        "cannot read absent\n",
    ),
    (
        "towerc run clock --record none --choices absent",
        Status::BadInput,
        "",
        "bad record 2 line\n",
    ),
    (
        "towerc run clock --record ticks --choices absent",
        Status::ReadFault,
        "",
        "cannot read absent\n",
    ),
    (
        "towerc run clock --record ticks --choices no_choice",
        Status::BadInput,
        "",
        "bad choices 1 line\n",
    ),
    ("towerc run clock", Status::Usage, "", USAGE),
    ("towerc run clock --record", Status::Usage, "", USAGE),
    (
        "towerc run clock --record ticks --order ticks",
        Status::Usage,
        "",
        USAGE,
    ),
    (
        "towerc run clock --record ticks --steps 007",
        Status::Usage,
        "",
        USAGE,
    ),
    (
        "towerc run clock --record ticks --steps 1000000001",
        Status::Usage,
        "",
        USAGE,
    ),
    (
        "towerc run clock --record ticks --record ticks",
        Status::Usage,
        "",
        USAGE,
    ),
    (
        "towerc run clock --record ticks --policy fair",
        Status::Usage,
        "",
        USAGE,
    ),
    (
        "towerc run clock --record ticks --cores 0",
        Status::Usage,
        "",
        USAGE,
    ),
    (
        "towerc run clock --record ticks --cores 65",
        Status::Usage,
        "",
        USAGE,
    ),
    (
        "towerc run clock --record ticks --policy fixed --cores 2",
        Status::Usage,
        "",
        USAGE,
    ),
    (
        "towerc check clock --policy fixed",
        Status::Usage,
        "",
        USAGE,
    ),
    (
        "towerc run clock --record ticks --steps -1",
        Status::Usage,
        "",
        USAGE,
    ),
];

#[test]
fn answers_by_name(rt: HostRuntime) -> Result<(), Fail> {
    let alloc = rt.alloc();
    for (line, status, on_out, on_err) in ANSWERS {
        let mut out = MemSink::new(alloc, 1000, Vec::new(alloc))?;
        let mut err = MemSink::new(alloc, 1000, Vec::new(alloc))?;
        let answer = tower(
            alloc,
            words(alloc, line)?.as_slice(),
            &mut shelf(alloc, &[])?,
            &mut out,
            &mut err,
        );
        assert_eq!(rt; answer, status, "{line}");
        assert_eq!(rt; out.bytes(), on_out.as_bytes(), "{line}");
        assert_eq!(rt; err.bytes(), on_err.as_bytes(), "{line}");
    }
    Ok(())
}

/// Each file with what `check` tells of it, on `out` or on `err`.
const CHECKS: [(&str, &str, &str); 11] = [
    (FLIGHT, FLIGHT_CHECK, ""),
    (
        "(tower none)",
        "tower none\nrecords 0 sources 0 channels 0 outputs 0 monitors 0 handlers 0\nmemory 0\ncode 0\nok\n",
        "",
    ),
    // A cycle that no source reaches, and one that a source does.
    (
        "(tower cyc (signal s u8 1) (channel a u8) (channel b u8) (monitor m (handler h a (emitter e b 1) (callback v (emit e v))) (handler k b (emitter e a 1) (callback v (emit e v)))))",
        "tower cyc\nrecords 0 sources 1 channels 2 outputs 0 monitors 1 handlers 2\ncost s 64\nmemory 65\ncode 64\nok\n",
        "",
    ),
    (
        "(tower cyc (signal s u8 1) (channel a u8) (channel b u8) (monitor m (handler g s (emitter e a 1) (callback v (emit e v))) (handler h a (emitter e b 1) (callback v (emit e v))) (handler k b (emitter e a 1) (callback v (emit e v)))))",
        "",
        "refused: cycle s h k h\n",
    ),
    (
        "(tower t (signal s u8 1) (channel c u8) (monitor m (handler h s (emitter e c 3) (callback v (for i 4 (emit e v))))))",
        "",
        "refused: bound h e 4 3\n",
    ),
    (
        "(tower t (signal s u8 1) (channel c u8) (monitor m (handler h s (emitter e c 0) (callback v (emit e v)))))",
        "",
        "refused: bound h e 1 0\n",
    ),
    (
        "(tower t (signal a u8 1) (channel a u8) (monitor m (handler h zz (emitter e q 1) (callback v (emit e true)))))",
        "",
        "refused: twice 34 17\n",
    ),
    (
        "(tower t (signal s u8 1) (monitor m (state x u16) (handler h s (callback v (set x v)))))",
        "",
        "refused: mismatch 82 u16 u8\n",
    ),
    ("(tower a))", "", "refused: unopened 9\n"),
    (
        "(tower t (period p 10 1) (monitor m (state n u32) (handler h p (callback t (for i 65536 (for j 65536 (set n n)))))))",
        "",
        "refused: work p 154620920016\n",
    ),
    (
        "(tower t (record r (field a (array 4096 u8)) (field b u8)))",
        "",
        "refused: size words 4097 4096\n",
    ),
];

/// A shelf with one file, of which each piece has at most so many bytes.
fn one_file(alloc: Global, text: &str, most: usize) -> Result<MemShelf, AllocError>
    requires { 1 ≤ most }
{
    let mut files = Vec::new(alloc);
    files.push((
        String::from_str(alloc, "file")?,
        Vec::from_slice(alloc, text.as_bytes())?,
    ))?;
    let mut shelf = MemShelf::new(files, Vec::new(alloc));
    shelf.cut(most);
    Ok(shelf)
}

#[test]
fn checks_in_pieces(rt: HostRuntime) -> Result<(), Fail> {
    let alloc = rt.alloc();
    let words = words(alloc, "towerc check file")?;
    for (text, on_out, on_err) in CHECKS {
        for most in [1usize, 3, 4096] {
            let mut out = MemSink::new(alloc, 1000, Vec::new(alloc))?;
            let mut err = MemSink::new(alloc, 1000, Vec::new(alloc))?;
            let answer = tower(
                alloc,
                words.as_slice(),
                &mut one_file(alloc, text, most)?,
                &mut out,
                &mut err,
            );
            let status = if on_err.is_empty() {
                Status::Done
            } else {
                Status::Refused
            };
            assert_eq!(rt; answer, status, "{text}");
            assert_eq!(rt; out.bytes(), on_out.as_bytes(), "{text}");
            assert_eq!(rt; err.bytes(), on_err.as_bytes(), "{text}");
        }
    }
    Ok(())
}

/// Whether `flight` has the links that it should: what its third source reaches, and who hears its third channel.
fn has_links(alloc: Global, flight: &Arch) -> Result<bool, NoMemory> {
    let handlers = reached(alloc, flight, 2)?;
    let heard = subscribers(alloc, flight, On::Channel(2))?;
    Ok(
        handlers.as_slice() == [4, 6].as_slice()
            && heard.as_slice() == [Listener::Output(0)].as_slice(),
    )
}

// No command shows these.
#[test]
fn follows_links(rt: HostRuntime) -> Result<(), Fail> {
    let alloc = rt.alloc();
    let checked = check(alloc, FLIGHT.as_bytes())?;
    let linked = has_links(alloc, checked.arch())?;
    assert!(rt; linked);
    Ok(())
}

// FILE is a `begin`, a piece and the end.
#[test]
fn each_call_of_the_shelf_fails_in_turn(rt: HostRuntime) -> Result<(), Fail> {
    let alloc = rt.alloc();
    let words = words(alloc, "towerc check clock")?;
    for number in 0..4u64 {
        let mut out = MemSink::new(alloc, 1000, Vec::new(alloc))?;
        let mut err = MemSink::new(alloc, 1000, Vec::new(alloc))?;
        let answer = tower(
            alloc,
            words.as_slice(),
            &mut shelf(alloc, &[number])?,
            &mut out,
            &mut err,
        );
        let (status, on_out, on_err) = match number {
            0..=2 => (Status::ReadFault, "", "cannot read clock\n"),
            _ => (Status::Done, CLOCK_CHECK, ""),
        };
        assert_eq!(rt; answer, status, "{number}");
        assert_eq!(rt; out.bytes(), on_out.as_bytes(), "{number}");
        assert_eq!(rt; err.bytes(), on_err.as_bytes(), "{number}");
    }
    Ok(())
}

// Of the text of a check, and of each line that tells a fault.
#[test]
fn each_put_fails_in_turn(rt: HostRuntime) -> Result<(), Fail> {
    let alloc = rt.alloc();
    for (line, on_out, on_err, most) in [
        ("towerc check clock", CLOCK_CHECK, "", 60u64),
        ("towerc check absent", "", "cannot read absent\n", 6),
        ("towerc check open", "", "refused: unclosed 0\n", 12),
        ("towerc", "", USAGE, 6),
    ] {
        let words = words(alloc, line)?;
        let mut failed = 0u64;
        for number in 0..most {
            let mut out = MemSink::new(alloc, 1000, Vec::from_slice(alloc, &[number])?)?;
            let mut err = MemSink::new(alloc, 1000, Vec::from_slice(alloc, &[number])?)?;
            let answer = tower(
                alloc,
                words.as_slice(),
                &mut shelf(alloc, &[])?,
                &mut out,
                &mut err,
            );
            assert!(rt;
                on_out.as_bytes().starts_with(out.bytes()),
                "{line} {number}"
            );
            assert!(rt;
                on_err.as_bytes().starts_with(err.bytes()),
                "{line} {number}"
            );
            let is_whole = out.bytes().len() == on_out.len() && err.bytes().len() == on_err.len();
            assert_eq!(rt; is_whole, answer != Status::WriteFault, "{line} {number}");
            if !is_whole {
                assert_eq!(rt; failed, number, "{line}");
                failed += 1;
            }
        }
        assert!(rt; 0 < failed && failed < most, "{line} {failed}");
    }
    Ok(())
}
