// INM and OUTM, single and repeated.
#![tactic(auto)]

ghost use Rattle.std.specs.Prelude.{◌≡◌};
ghost use Rattle.sheet.specs.declared.Primitive.TheVariants as primitives;
ghost use Rattle.sheet.specs.Block as tree;
ghost use Rattle.mach_ports.specs.Lent.{UsesPorts, UsesPortsAndRam};
ghost use Rattle.do_stream.specs.Streams.{primitive_of};

use mach_element::Due;
use mach_ports::Ported;
use mach_registers::{CW, DW, IX, IY};
use sheet::{Primitive, Progress, Refusal, Repeat};

#[inline(always)]
fn inm(
    file: &mut [u16; 14],
    ram: &mut [u8],
    rom: &[u8],
    tape: &[u8],
    log: &mut [u8],
    q: Progress,
    word: bool,
    seg: u8,
) -> Result<Ported, Refusal>
    ensures { UsesPortsAndRam (tree.primitive primitives.Inm word seg) file ram rom tape log q result 4 }
{
    let t = mach_ports::take(word, tape, log, q, file[DW])?;
    let bus = mach_element::set_target(word, file, ram, rom, t.value);
    mach_element::step_index(word, file, IY);
    Ok(Ported {
        progress: t.progress,
        bus: mach_tally::both(t.bus, bus),
    })
}

#[inline(always)]
fn outm(
    file: &mut [u16; 14],
    ram: &[u8],
    rom: &[u8],
    tape: &[u8],
    log: &mut [u8],
    q: Progress,
    word: bool,
    seg: u8,
) -> Result<Ported, Refusal>
    ensures { UsesPorts (tree.primitive primitives.Outm word seg) file ram rom tape log q result 4 }
{
    let v = mach_element::source_element(word, file, ram, rom, seg);
    let g = mach_ports::give(word, log, q, file[DW], v.value)?;
    mach_element::step_index(word, file, IX);
    Ok(Ported {
        bus: mach_tally::both(v.bus, g.bus),
        ..g
    })
}

// The primitives that use a port.
#[derive(Clone, Copy)]
pub enum Streaming {
    Inm,
    Outm,
}

impl From<Streaming> for Primitive {
    ghost from_gives = { λ k p. p ≡ primitive_of k };

    fn from(kind: Streaming) -> Primitive
        ensures { result ≡ primitive_of kind }
    {
        match kind {
            Streaming::Inm => Primitive::Inm,
            Streaming::Outm => Primitive::Outm,
        }
    }
}

#[inline(always)]
fn primitive(
    file: &mut [u16; 14],
    ram: &mut [u8],
    rom: &[u8],
    tape: &[u8],
    log: &mut [u8],
    q: Progress,
    kind: Streaming,
    word: bool,
    seg: u8,
) -> Result<Ported, Refusal>
    ensures { UsesPortsAndRam (tree.primitive (primitive_of kind) word seg) file ram rom tape log q result 4 }
{
    match kind {
        Streaming::Inm => inm(file, ram, rom, tape, log, q, word, seg),
        Streaming::Outm => outm(file, ram, rom, tape, log, q, word, seg),
    }
}

#[inline(always)]
fn element(
    file: &mut [u16; 14],
    ram: &mut [u8],
    rom: &[u8],
    tape: &[u8],
    log: &mut [u8],
    q: Progress,
    kind: Streaming,
    word: bool,
    seg: u8,
    repeat: Repeat,
    start: u16,
) -> Result<Ported, Refusal>
    ensures { UsesPortsAndRam (tree.element (primitive_of kind) word seg repeat start) file ram rom tape log q result 4 }
{
    let r = primitive(file, ram, rom, tape, log, q, kind, word, seg);
    if r.is_ok() {
        mach_element::finish_element(file, Primitive::from(kind), repeat, start);
    }
    r
}

// One element of an instruction whose first prefix is at the offset `start`.
#[inline(always)]
pub fn stream(
    file: &mut [u16; 14],
    ram: &mut [u8],
    rom: &[u8],
    tape: &[u8],
    log: &mut [u8],
    q: Progress,
    kind: Streaming,
    word: bool,
    seg: u8,
    repeat: Repeat,
    start: u16,
) -> Result<Ported, Refusal>
    ensures { UsesPortsAndRam (tree.block (primitive_of kind) word seg repeat start) file ram rom tape log q result 4 }
{
    match mach_element::what_is_due(file[CW], repeat) {
        Due::Nothing => Ok(Ported {
            progress: q,
            bus: mach_tally::none(),
        }),
        Due::Single => primitive(file, ram, rom, tape, log, q, kind, word, seg),
        Due::Element => element(file, ram, rom, tape, log, q, kind, word, seg, repeat, start),
    }
}
