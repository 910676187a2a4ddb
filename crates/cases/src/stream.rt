// Cases come from standard input one after the other, each gets one public call, and each result goes to standard output.
use case_form::{Call, Case};
use sheet::State;
use std::io::Print;

// Why the stream ends: no further case, or one that is cut off; a case that breaks its rules; a result that cannot be written.
#[derive(Clone, Copy)]
enum End {
    Input,
    Unfit,
    Output,
}

fn write(rt: HostRuntime, out: &[u8]) -> Result<(), End> {
    rt.stdout().write_all(out).map_err(|_| End::Output)
}

// Fills a buffer from standard input.
fn read_whole(rt: HostRuntime, buffer: &mut [u8]) -> Result<(), End> {
    if base_input::read_full(&mut rt.stdin(), buffer) == buffer.len() {
        Ok(())
    } else {
        Err(End::Input)
    }
}

fn answer(
    rt: HostRuntime,
    s: State,
    ram: &mut [u8],
    rom: &[u8],
    tape: &[u8],
    log: &mut [u8],
    c: Case,
) -> Result<(), End> {
    if let Call::ReadLog = c.call {
        write(rt, &crate::call::reading(log, s.progress.log, c.rule))
    } else {
        write(rt, &crate::call::result(s, ram, rom, tape, log, c))
    }
}

// One case, over buffers that are as long as the longest needs. They are no struct: five fields of one that are lent at once get no proof.
fn serve(
    rt: HostRuntime,
    ram: &mut [u8],
    rom: &mut [u8],
    tape: &mut [u8],
    log: &mut [u8],
    patches: &mut [u8],
) -> Result<(), End> {
    let mut header = [0; 72];
    read_whole(rt, &mut header)?;
    if !case_form::good_header(&header) {
        return Err(End::Unfit);
    }
    let c = case_form::case_of(&header);
    let s = case_form::state_of(&header);
    if !case_form::fits(
        c,
        ram.len(),
        rom.len(),
        tape.len(),
        log.len(),
        patches.len(),
    ) {
        return Err(End::Unfit);
    }
    let ram = &mut ram[..c.ram];
    let rom = &mut rom[..c.rom];
    let tape = &mut tape[..c.tape];
    let log = &mut log[..c.log];
    let patches = &mut patches[..c.patches * 6];
    read_whole(rt, patches)?;
    read_whole(rt, tape)?;
    if !case_bytes::all_kinds(patches) {
        return Err(End::Unfit);
    }
    crate::call::lay_out(ram, c.fill, 0, patches);
    crate::call::lay_out(rom, c.fill, 1, patches);
    crate::call::lay_out(log, c.fill, 2, patches);
    answer(rt, s, ram, rom, tape, log, c)
}

// A buffer comes from a function: of a call's result the length is known, and no check computes its elements.
fn bytes<const N: usize>() -> [u8; N] {
    [0; N]
}

pub fn run(rt: HostRuntime) {
    let mut ram: [u8; 1048577] = bytes();
    let mut rom: [u8; 1048577] = bytes();
    let mut tape: [u8; 4096] = bytes();
    let mut log: [u8; 4096] = bytes();
    let mut patches: [u8; 24576] = bytes();
    // a proved loop has to end, and nothing says that the input does: no run uses up so many turns
    for _ in 0..u64::MAX {
        match serve(rt, &mut ram, &mut rom, &mut tape, &mut log, &mut patches) {
            Ok(()) => {}
            Err(End::Unfit) => {
                let _ = rt
                    .stderr()
                    .write_all(b"cases: the stream ends here: a case breaks its rules\n");
                return;
            }
            Err(End::Input | End::Output) => return,
        }
    }
}
