ghost use Rattle.std.specs.Prelude.{◌≡◌, [], ◌∷◌, codes, map, IfOk};
ghost use Rattle.tower_types.specs.Ty.{Fields};
ghost use Rattle.tower_types.specs.View.{ty_of, fields_of};
ghost use Rattle.tower_syntax.specs.View.{source_of, channel_of, output_of, monitor_of};
ghost use Rattle.tower_report.specs.Worked.{fix, states, worked};

use crate::{
    put_core, put_count, put_end, put_held, put_lost, put_mark, put_message, put_misfit, put_out,
    put_pending, put_state_values, put_states, put_value, put_waiting, put_waits, put_words,
};
use sqlite_items::Items;
use std::alloc::Global;
use std::test::Fail;
use tower_io::{MemSink, Put, Sink};
use tower_syntax::{Arch, ArchParts, Channel, Listener, Mark, Monitor, Output, Source, SourceKind};
use tower_types::{Name, Records, Scalar, Ty, Value};

fn records(alloc: Global) -> Result<Records, Fail>
    ensures { IfOk result (λ records. records ≡ fix ∷ []) }
{
    let mut fields = Vec::new(alloc);
    fields.push((Name::new(alloc, b"lat")?, Ty::Scalar(Scalar::I32)))?;
    fields.push((Name::new(alloc, b"lon")?, Ty::Scalar(Scalar::I32)))?;
    let mut records = Records::new(alloc);
    records.push(fields)?;
    Ok(records)
}

fn sources(alloc: Global) -> Result<Items<Source>, Fail>
    ensures { IfOk result (λ sources. map source_of sources ≡ worked.sources) }
{
    let mut sources = Items::new(alloc);
    sources.push(Source {
        name: Name::new(alloc, b"boot")?,
        kind: SourceKind::Init,
        priority: 9,
        message: Ty::Scalar(Scalar::I64),
        depth: None,
    })?;
    sources.push(Source {
        name: Name::new(alloc, b"gps")?,
        kind: SourceKind::Signal,
        priority: 3,
        message: Ty::Rec(0),
        depth: Some(2),
    })?;
    Ok(sources)
}

fn monitors(alloc: Global) -> Result<Items<Monitor>, Fail>
    ensures { IfOk result (λ monitors. map monitor_of monitors ≡ worked.monitors) }
{
    let mut states = Items::new(alloc);
    let ring = Ty::array(alloc, 2, Ty::Rec(0))?;
    states.push((Name::new(alloc, b"ring")?, ring))?;
    states.push((Name::new(alloc, b"pos")?, Ty::Scalar(Scalar::Ix(4))))?;
    states.push((Name::new(alloc, b"on")?, Ty::Scalar(Scalar::Bool)))?;
    let mut monitors = Items::new(alloc);
    monitors.push(Monitor {
        name: Name::new(alloc, b"track")?,
        states,
    })?;
    Ok(monitors)
}

fn outputs(alloc: Global) -> Result<(Items<Channel>, Items<Output>), Fail>
    ensures channels { IfOk result (λ r. map channel_of r.0 ≡ worked.channels) }
    ensures outputs { IfOk result (λ r. map output_of r.1 ≡ worked.outputs) }
{
    let mut channels = Items::new(alloc);
    channels.push(Channel {
        name: Name::new(alloc, b"log")?,
        message: Ty::Scalar(Scalar::U32),
    })?;
    let mut outputs = Items::new(alloc);
    outputs.push(Output {
        name: Name::new(alloc, b"seen")?,
        channel: 0,
    })?;
    Ok((channels, outputs))
}

fn system(alloc: Global) -> Result<Arch, Fail>
    ensures { IfOk result (λ arch. arch ≡ worked) }
{
    let (channels, outputs) = outputs(alloc)?;
    let mut record_names = Items::new(alloc);
    record_names.push(Name::new(alloc, b"fix")?)?;
    let mut listeners = Items::new(alloc);
    listeners.push(Listener::Output(0))?;
    Ok(Arch::new(ArchParts {
        version: 2,
        name: Name::new(alloc, b"nav")?,
        records: records(alloc)?,
        record_names,
        sources: sources(alloc)?,
        channels,
        outputs,
        monitors: monitors(alloc)?,
        handlers: Items::new(alloc),
        listeners,
    }))
}

#[test]
fn puts_the_last_lines(rt: HostRuntime) -> Result<(), Fail> {
    let mut out = MemSink::new(rt.alloc(), 100, Vec::new(rt.alloc()))?;
    assert_eq!(rt; put_count(&mut out, 0), Put::Done);
    assert_eq!(rt; put_count(&mut out, u64::MAX), Put::Done);
    assert_eq!(rt; put_waits(&mut out, 12), Put::Done);
    assert_eq!(rt; put_core(&mut out, 63, 7), Put::Done);
    assert_eq!(rt; put_end(&mut out, true), Put::Done);
    assert_eq!(rt; put_end(&mut out, false), Put::Done);
    let want = "count 0\ncount 18446744073709551615\nwaits 12\ncore 63 7\nstopped\ndone\n";
    assert_eq!(rt; out.bytes(), want.as_bytes());
    Ok(())
}

#[test]
fn puts_words(rt: HostRuntime) -> Result<(), Fail> {
    let alloc = rt.alloc();
    let records = records(alloc)?;
    let two = Ty::array(alloc, 2, Ty::Rec(0))?;
    let none = Ty::array(alloc, 0, Ty::Scalar(Scalar::U8))?;
    let mut out = MemSink::new(alloc, 100, Vec::new(alloc))?;
    assert_eq!(rt;
        put_words(&mut out, &records, &two, &[7, -3, 0, 0]),
        Put::Done
    );
    assert_eq!(rt; put_words(&mut out, &records, &none, &[]), Put::Done);
    assert_eq!(rt;
        put_words(&mut out, &records, &Ty::Scalar(Scalar::Bool), &[1]),
        Put::Done
    );
    assert_eq!(rt;
        put_words(&mut out, &records, &Ty::Scalar(Scalar::Bool), &[0]),
        Put::Done
    );
    assert_eq!(rt; out.bytes(), b"((7 -3) (0 0))()truefalse".as_slice());
    Ok(())
}

#[test]
fn puts_values(rt: HostRuntime) -> Result<(), Fail> {
    let alloc = rt.alloc();
    let records = records(alloc)?;
    let mut fix = Items::new(alloc);
    fix.push(Value::Word(7))?;
    fix.push(Value::Word(-3))?;
    let mut ring = Items::new(alloc);
    ring.push(Value::Parts(fix))?;
    let t = Ty::array(alloc, 1, Ty::Rec(0))?;
    let mut out = MemSink::new(alloc, 100, Vec::new(alloc))?;
    assert_eq!(rt;
        put_value(&mut out, &records, &t, &Value::Parts(ring)),
        Put::Done
    );
    assert_eq!(rt;
        put_value(
            &mut out,
            &records,
            &Ty::Scalar(Scalar::Bool),
            &Value::Word(1)
        ),
        Put::Done
    );
    assert_eq!(rt; out.bytes(), b"((7 -3))true".as_slice());
    Ok(())
}

#[test]
fn puts_the_lines_of_a_system(rt: HostRuntime) -> Result<(), Fail> {
    let alloc = rt.alloc();
    let arch = system(alloc)?;
    let mut out = MemSink::new(alloc, 200, Vec::new(alloc))?;
    assert_eq!(rt; put_mark(&mut out, &arch, 0, Mark::Arrive), Put::Done);
    assert_eq!(rt; put_mark(&mut out, &arch, 1, Mark::Start(1)), Put::Done);
    assert_eq!(rt; put_mark(&mut out, &arch, 12, Mark::Run(1)), Put::Done);
    assert_eq!(rt; put_mark(&mut out, &arch, 13, Mark::Out(0)), Put::Done);
    assert_eq!(rt; put_out(&mut out, &arch, 0, &[6]), Put::Done);
    assert_eq!(rt; put_held(&mut out, &arch, 0), Put::Done);
    assert_eq!(rt;
        put_states(&mut out, &arch, 0, &[7, -3, 0, 0, 1, 1]),
        Put::Done
    );
    assert_eq!(rt; put_lost(&mut out, &arch, 0, 0), Put::Done);
    assert_eq!(rt; put_lost(&mut out, &arch, 1, 1), Put::Done);
    let want = "0 a\n1 s gps\n12 r gps\n13 o boot\nout seen 6\nheld track\n\
        state track ring ((7 -3) (0 0))\nstate track pos 1\nstate track on true\nlost gps 1\n";
    assert_eq!(rt; out.bytes(), want.as_bytes());
    Ok(())
}

#[test]
fn puts_the_lines_of_a_replay(rt: HostRuntime) -> Result<(), Fail> {
    let alloc = rt.alloc();
    let arch = system(alloc)?;
    let mut values = Items::new(alloc);
    values.push(Value::Parts(Items::new(alloc)))?;
    values.push(Value::Word(1))?;
    values.push(Value::Word(0))?;
    let mut out = MemSink::new(alloc, 200, Vec::new(alloc))?;
    assert_eq!(rt; put_message(&mut out, &arch, 0, &Value::Word(6)), Put::Done);
    assert_eq!(rt;
        put_state_values(&mut out, &arch, 0, &Value::Parts(values)),
        Put::Done
    );
    assert_eq!(rt; put_waiting(&mut out, &arch, 1, 2), Put::Done);
    assert_eq!(rt; put_pending(&mut out, &arch, 1, 0), Put::Done);
    assert_eq!(rt; put_misfit(&mut out, 15), Put::Done);
    let want = "out seen 6\nstate track ring ()\nstate track pos 1\nstate track on false\n\
        waiting gps 2\npending gps 0\nmisfit 15\n";
    assert_eq!(rt; out.bytes(), want.as_bytes());
    Ok(())
}

// The puts of a text fail in turn, by their numbers. What was written is a first part of the text.
#[test]
fn each_put_fails_in_turn(rt: HostRuntime) -> Result<(), Fail> {
    let alloc = rt.alloc();
    let records = records(alloc)?;
    let want = "(7 -3)";
    for number in 0..6u64 {
        let mut out = MemSink::new(alloc, 100, Vec::from_slice(alloc, &[number])?)?;
        let answer = put_words(&mut out, &records, &Ty::Rec(0), &[7, -3]);
        let is_whole = number == 5;
        assert_eq!(rt;
            answer,
            if is_whole { Put::Done } else { Put::Failed },
            "{number}"
        );
        assert_eq!(rt; out.faults(), if is_whole { 0 } else { 1 }, "{number}");
        assert!(rt; want.as_bytes().starts_with(out.bytes()), "{number}");
        assert_eq!(rt; out.bytes().len() == want.len(), is_whole, "{number}");
    }
    Ok(())
}
