//! The trees of some files, with the offsets that their names have in the text.

use sqlite_items::Items;
use std::alloc::Global;
use std::mem;
use tower_syntax::{
    Id, Raw, RawExpr, RawField, RawHpart, RawItem, RawPart, RawPlace, RawStmt, RawType,
};
use tower_types::{Name, NoMemory, Scalar};

/// The offset of a form whose name stands so far behind its bracket.
fn before(name: &Id, len: u32) -> u32 {
    name.at.saturating_sub(len)
}

fn byte(at: u32) -> RawType {
    RawType::Word {
        at,
        scalar: Scalar::U8,
    }
}

/// A file of which some parts are complete. What ends takes all that stands before it.
#[derive(Drop)]
struct Parts {
    alloc: Global,
    stmts: Items<RawStmt>,
    inside: Items<RawHpart>,
    parts: Items<RawPart>,
    items: Items<RawItem>,
}

/// A name of one letter, with its offset.
type Letter = (u32, u8);

impl Parts {
    fn new(alloc: Global) -> Parts {
        Parts {
            alloc,
            stmts: Items::new(alloc),
            inside: Items::new(alloc),
            parts: Items::new(alloc),
            items: Items::new(alloc),
        }
    }

    fn letter(&self, name: Letter) -> Result<Id, NoMemory> {
        let (at, letter) = name;
        let name = Name::new(self.alloc, &[letter])?;
        Ok(Id { at, name })
    }

    fn bind(&mut self, name: Letter, from: Letter) -> Result<(), NoMemory> {
        let name = self.letter(name)?;
        let from = self.letter(from)?;
        self.stmts.push(RawStmt::Bind {
            at: before(&name, 5),
            name,
            value: RawExpr::Read(RawPlace::Root(from)),
        })?;
        Ok(())
    }

    fn set(&mut self, to: Letter, from: Letter) -> Result<(), NoMemory> {
        let to = self.letter(to)?;
        let from = self.letter(from)?;
        self.stmts.push(RawStmt::Set {
            at: before(&to, 5),
            place: RawPlace::Root(to),
            value: RawExpr::Read(RawPlace::Root(from)),
        })?;
        Ok(())
    }

    fn copy(&mut self, to: Letter, from: Letter) -> Result<(), NoMemory> {
        let to = self.letter(to)?;
        let from = self.letter(from)?;
        self.stmts.push(RawStmt::Copy {
            at: before(&to, 6),
            to: RawPlace::Root(to),
            from: RawPlace::Root(from),
        })?;
        Ok(())
    }

    fn emit(&mut self, emitter: Letter, value: Letter) -> Result<(), NoMemory> {
        let emitter = self.letter(emitter)?;
        let value = self.letter(value)?;
        self.stmts.push(RawStmt::Emit {
            at: before(&emitter, 6),
            emitter,
            value: RawExpr::Read(RawPlace::Root(value)),
        })?;
        Ok(())
    }

    fn repeat(&mut self, name: Letter) -> Result<(), NoMemory> {
        let name = self.letter(name)?;
        let body = mem::replace(&mut self.stmts, Items::new(self.alloc));
        self.stmts.push(RawStmt::Loop {
            at: before(&name, 5),
            name,
            times: 2,
            body,
        })?;
        Ok(())
    }

    fn emitter(&mut self, name: Letter, channel: Letter) -> Result<(), NoMemory> {
        let name = self.letter(name)?;
        let channel = self.letter(channel)?;
        self.inside.push(RawHpart::Emitter {
            at: before(&name, 9),
            name,
            channel,
            bound: 1,
        })?;
        Ok(())
    }

    fn callback(&mut self, name: Letter) -> Result<(), NoMemory> {
        let name = self.letter(name)?;
        let stmts = mem::replace(&mut self.stmts, Items::new(self.alloc));
        self.inside.push(RawHpart::Callback {
            at: before(&name, 10),
            name,
            stmts,
        })?;
        Ok(())
    }

    fn state(&mut self, name: Letter) -> Result<(), NoMemory> {
        let name = self.letter(name)?;
        self.parts.push(RawPart::State {
            at: before(&name, 7),
            ty: byte(name.at.saturating_add(2)),
            name,
        })?;
        Ok(())
    }

    fn handler(&mut self, name: Letter, on: Letter) -> Result<(), NoMemory> {
        let name = self.letter(name)?;
        let on = self.letter(on)?;
        let parts = mem::replace(&mut self.inside, Items::new(self.alloc));
        self.parts.push(RawPart::Handler {
            at: before(&name, 9),
            name,
            on,
            parts,
        })?;
        Ok(())
    }

    fn monitor(&mut self, name: Letter) -> Result<(), NoMemory> {
        let name = self.letter(name)?;
        let parts = mem::replace(&mut self.parts, Items::new(self.alloc));
        self.items.push(RawItem::Monitor {
            at: before(&name, 9),
            name,
            parts,
        })?;
        Ok(())
    }

    fn channel(&mut self, name: Letter, message: RawType) -> Result<(), NoMemory> {
        let name = self.letter(name)?;
        self.items.push(RawItem::Channel {
            at: before(&name, 9),
            name,
            message,
        })?;
        Ok(())
    }

    fn signal(&mut self, name: Letter, message: RawType) -> Result<(), NoMemory> {
        let name = self.letter(name)?;
        self.items.push(RawItem::Signal {
            at: before(&name, 8),
            name,
            message,
            priority: 1,
            depth: None,
        })?;
        Ok(())
    }

    fn output(&mut self, name: Letter, channel: Letter) -> Result<(), NoMemory> {
        let name = self.letter(name)?;
        let channel = self.letter(channel)?;
        self.items.push(RawItem::Output {
            at: before(&name, 8),
            name,
            channel,
        })?;
        Ok(())
    }

    fn record(&mut self, name: Letter, field: Letter, ty: RawType) -> Result<(), NoMemory> {
        let name = self.letter(name)?;
        let field = self.letter(field)?;
        let mut fields = Items::new(self.alloc);
        fields.push(RawField {
            at: before(&field, 7),
            name: field,
            ty,
        })?;
        self.items.push(RawItem::Record {
            at: before(&name, 8),
            name,
            fields,
        })?;
        Ok(())
    }

    /// The file `t` with all items.
    fn file(&mut self) -> Result<Raw, NoMemory> {
        let name = self.letter((7, b't'))?;
        let items = mem::replace(&mut self.items, Items::new(self.alloc));
        Ok(Raw {
            at: 0,
            version: 1,
            name,
            items,
        })
    }
}

/// `(tower t (channel NAME u8) (output o USE))`, where both have one letter.
pub fn output_of(alloc: Global, name: u8, used: u8) -> Result<Raw, NoMemory> {
    let mut parts = Parts::new(alloc);
    parts.channel((18, name), byte(20))?;
    parts.output((32, b'o'), (34, used))?;
    parts.file()
}

/// `(tower t (signal a u8 1) (channel a u8) (monitor m (handler h z (emitter e q 1) (callback v (emit e v)))))`.
pub fn two_sorts(alloc: Global) -> Result<Raw, NoMemory> {
    let mut parts = Parts::new(alloc);
    parts.signal((17, b'a'), byte(19))?;
    parts.channel((34, b'a'), byte(36))?;
    unknown_source(&mut parts)?;
    parts.file()
}

fn unknown_source(parts: &mut Parts) -> Result<(), NoMemory> {
    parts.emitter((73, b'e'), (75, b'q'))?;
    parts.emit((98, b'e'), (100, b'v'))?;
    parts.callback((90, b'v'))?;
    parts.handler((60, b'h'), (62, b'z'))?;
    parts.monitor((49, b'm'))
}

/// `(tower t (record r (field f u8)) (record s (field f r)) (channel c u8) (channel d s) MONITOR MONITOR)`.
pub fn numbers_anew(alloc: Global) -> Result<Raw, NoMemory> {
    let mut parts = Parts::new(alloc);
    records(&mut parts)?;
    channels(&mut parts)?;
    first_handler(&mut parts)?;
    second_handler(&mut parts)?;
    second_monitor(&mut parts)?;
    parts.file()
}

fn records(parts: &mut Parts) -> Result<(), NoMemory> {
    parts.record((17, b'r'), (26, b'f'), byte(28))?;
    let inner = parts.letter((52, b'r'))?;
    parts.record((41, b's'), (50, b'f'), RawType::Rec(inner))
}

fn channels(parts: &mut Parts) -> Result<(), NoMemory> {
    parts.channel((65, b'c'), byte(67))?;
    let message = parts.letter((82, b's'))?;
    parts.channel((80, b'd'), RawType::Rec(message))
}

/// `(state x u8) (handler h c (emitter e c 1) (emitter g d 1) CALLBACK CALLBACK)`, in the monitor `m`.
fn first_handler(parts: &mut Parts) -> Result<(), NoMemory> {
    parts.state((103, b'x'))?;
    parts.emitter((131, b'e'), (133, b'c'))?;
    parts.emitter((147, b'g'), (149, b'd'))?;
    callbacks(parts)?;
    parts.handler((118, b'h'), (120, b'c'))
}

/// `(callback v (for k 2 (let a x) (set x a)) (emit g v)) (callback v (let a x) (set x a))`.
fn callbacks(parts: &mut Parts) -> Result<(), NoMemory> {
    parts.bind((180, b'a'), (182, b'x'))?;
    parts.set((190, b'x'), (192, b'a'))?;
    parts.repeat((171, b'k'))?;
    parts.emit((202, b'g'), (204, b'v'))?;
    parts.callback((164, b'v'))?;
    parts.bind((225, b'a'), (227, b'x'))?;
    parts.set((235, b'x'), (237, b'a'))?;
    parts.callback((218, b'v'))
}

/// `(handler k d (emitter e d 1) (callback v (emit e v)))`, and the end of `m`.
fn second_handler(parts: &mut Parts) -> Result<(), NoMemory> {
    parts.emitter((264, b'e'), (266, b'd'))?;
    parts.emit((289, b'e'), (291, b'v'))?;
    parts.callback((281, b'v'))?;
    parts.handler((251, b'k'), (253, b'd'))?;
    parts.monitor((94, b'm'))
}

/// `(monitor n (state y u8) (state x u8) (handler l c (callback v (copy x y))))`.
fn second_monitor(parts: &mut Parts) -> Result<(), NoMemory> {
    parts.state((315, b'y'))?;
    parts.state((328, b'x'))?;
    parts.copy((365, b'x'), (367, b'y'))?;
    parts.callback((357, b'v'))?;
    parts.handler((343, b'l'), (345, b'c'))?;
    parts.monitor((306, b'n'))
}
