// A case's header, and the results of its call, as the stream has them.
#![tactic(auto)]

ghost use Rattle.std.specs.Prelude.{◌≡◌, ◌<◌};
ghost use Rattle.case_form.specs.Form.{place_of, good_header, file_of, state_of, rule_of, call_of, case_of, fits_in, with_file, with_answer};
ghost use Rattle.case_form.specs.Form.{with_tally, with_places, with_call, with_sums, result_of, with_record, with_entry};

use case_bytes::{double_at, put_double, put_word, word_at};
use sheet::{Bus, Entry, GapRule, Marks, Progress, State};

// ---- the header

// Whether it keeps the rules of the stream, the limits of its lengths apart.
#[tactic(auto, unfolding(crate::specs::Form::good_header))]
pub fn good_header(header: &[u8; 72]) -> bool
    ensures { result ≡ good_header header.now }
{
    header[0] <= 5
        && header[1] <= 1
        && header[2] <= 1
        && header[61] <= 1
        && header[62] <= 1
        && header[63] <= 1
        && word_at(header, 64) == 0
        && word_at(header, 66) == 0
        && double_at(header, 68) == 0
}

// The registers stand in the stream as AW CW DW BW SP BP IX IY PS SS DS0 DS1 PC PSW: where the register file has each.
#[tactic(auto, unfolding(crate::specs::Form::place_of))]
fn place(i: usize) -> usize
    requires { i < 14 }
    ensures { (result ≡ place_of i) × (result < 14) }
{
    match i {
        8..=10 => i + 1,
        11 => 8,
        _ => i,
    }
}

// The registers of a header.
fn file_of(header: &[u8; 72]) -> [u16; 14]
    ensures { result ≡ file_of header.now 14 }
{
    let mut file = [0; 14];
    for i in 0..14 {
        file[place(i)] = word_at(header, 6 + i * 2);
    }
    file
}

// The state of a header.
#[tactic(auto, unfolding(crate::specs::Form::state_of))]
pub fn state_of(header: &[u8; 72]) -> State
    ensures { result ≡ state_of header.now }
{
    State {
        file: file_of(header),
        marks: Marks {
            halted: header[1] != 0,
            loaded: header[61] != 0,
            writable: header[62] != 0,
        },
        progress: Progress {
            tape: double_at(header, 34) as usize,
            log: double_at(header, 38) as usize,
            count: double_at(header, 42),
        },
    }
}

// The gap rule that a log is read under.
#[tactic(auto, unfolding(crate::specs::Form::rule_of))]
fn rule_of(header: &[u8; 72]) -> GapRule
    ensures { result ≡ rule_of header.now }
{
    if header[63] == 0 {
        GapRule::Old
    } else {
        GapRule::New
    }
}

// The calls that a case can ask for; `Quick` is the quicker run.
#[derive(Clone, Copy)]
pub enum Call {
    Step,
    Run,
    Interrupt,
    Reset,
    ReadLog,
    Quick,
}

// The call of a number; no good header has one above 5. It answers for every number, as `case_of` does for every header, and so is no `TryFrom`.
#[tactic(auto, unfolding(crate::specs::Form::call_of))]
fn call_of(number: u8) -> Call
    ensures { result ≡ call_of number }
{
    match number {
        0 => Call::Step,
        1 => Call::Run,
        2 => Call::Interrupt,
        4 => Call::ReadLog,
        5 => Call::Quick,
        _ => Call::Reset,
    }
}

// The rest of a header: the call with its arguments, the lengths of the buffers, the number of patches, the byte to fill with.
#[derive(Clone, Copy)]
pub struct Case {
    pub call: Call,
    pub maskable: bool,
    pub vector: u8,
    pub budget: u16,
    pub rule: GapRule,
    pub ram: usize,
    pub rom: usize,
    pub tape: usize,
    pub log: usize,
    pub patches: usize,
    pub fill: u8,
}

#[tactic(auto, unfolding(crate::specs::Form::case_of))]
pub fn case_of(header: &[u8; 72]) -> Case
    ensures { result ≡ case_of header.now }
{
    Case {
        call: call_of(header[0]),
        maskable: header[2] != 0,
        vector: header[3],
        budget: word_at(header, 4),
        rule: rule_of(header),
        ram: double_at(header, 46) as usize,
        rom: double_at(header, 50) as usize,
        tape: usize::from(word_at(header, 54)),
        log: usize::from(word_at(header, 56)),
        patches: usize::from(word_at(header, 58)),
        fill: header[60],
    }
}

// Whether buffers of these lengths are as long as a case has them; a patch has six bytes.
#[tactic(auto, unfolding(crate::specs::Form::fits_in))]
pub fn fits(c: Case, ram: usize, rom: usize, tape: usize, log: usize, patches: usize) -> bool
    ensures { result ≡ fits_in c ram rom tape log patches }
{
    c.ram <= ram && c.rom <= rom && c.tape <= tape && c.log <= log && c.patches <= patches / 6
}

// ---- the result of a call on the machine

#[tactic(auto, unfolding(crate::specs::Form::with_answer))]
fn put_answer(out: &mut [u8; 88], number: u8, marks: Marks, steps: u32)
    ensures { out.new ≡ with_answer number marks steps out.old }
{
    out[0] = number;
    out[1] = u8::from(marks.halted);
    out[70] = u8::from(marks.loaded);
    out[71] = u8::from(marks.writable);
    put_double(out, 2, steps);
}

// Bus cycles and dropped bytes.
#[tactic(auto, unfolding(crate::specs::Form::with_tally))]
fn put_tally(out: &mut [u8; 88], bus: Bus)
    ensures { out.new ≡ with_tally bus out.old }
{
    put_double(out, 6, bus.cycles);
    put_double(out, 58, bus.dropped);
}

fn put_file(out: &mut [u8; 88], file: &[u16; 14])
    ensures { out.new ≡ with_file file.now 14 out.old }
{
    for i in 0..14 {
        put_word(out, 10 + i * 2, file[place(i)]);
    }
}

// Places have 32 bits in a stream.
#[tactic(auto, unfolding(crate::specs::Form::with_places))]
fn put_places(out: &mut [u8; 88], tape: usize, log: usize, count: u32)
    ensures { out.new ≡ with_places tape log count out.old }
{
    put_double(out, 38, (tape % 4294967296) as u32);
    put_double(out, 42, (log % 4294967296) as u32);
    put_double(out, 46, count);
}

// All but the sums.
#[tactic(auto, unfolding(crate::specs::Form::with_call))]
fn put_call(out: &mut [u8; 88], number: u8, steps: u32, bus: Bus, s: State)
    ensures { out.new ≡ with_call number steps bus s out.old }
{
    put_answer(out, number, s.marks, steps);
    put_tally(out, bus);
    put_file(out, &s.file);
    put_places(out, s.progress.tape, s.progress.log, s.progress.count);
}

#[tactic(auto, unfolding(crate::specs::Form::with_sums))]
fn put_sums(out: &mut [u8; 88], ram: u32, log: u32)
    ensures { out.new ≡ with_sums ram log out.old }
{
    put_double(out, 50, ram);
    put_double(out, 54, log);
}

// The whole result: the bytes for what a call came to, with the sums of RAM and log after it.
#[tactic(auto, unfolding(crate::specs::Form::result_of))]
pub fn result_of(number: u8, steps: u32, bus: Bus, s: State, ram: u32, log: u32) -> [u8; 88]
    ensures { result ≡ result_of number steps bus s ram log }
{
    let mut out = [0; 88];
    put_call(&mut out, number, steps, bus, s);
    put_sums(&mut out, ram, log);
    out
}

// ---- the result of a log reading

#[tactic(auto, unfolding(crate::specs::Form::with_record))]
fn put_record(out: &mut [u8; 17], kind: u8, gap: u64, key: u64, value: u64, next: usize)
    ensures { out.new ≡ with_record kind gap key value next out.old }
{
    out[0] = kind;
    put_double(out, 1, (gap % 4294967296) as u32);
    put_double(out, 5, (key % 4294967296) as u32);
    put_double(out, 9, (value % 4294967296) as u32);
    put_double(out, 13, (next % 4294967296) as u32);
}

#[tactic(auto, unfolding(crate::specs::Form::with_entry))]
pub fn put_entry(out: &mut [u8; 17], e: Entry)
    ensures { out.new ≡ with_entry e out.old }
{
    match e {
        Entry::Record {
            gap,
            key,
            value,
            next,
        } => put_record(out, 0, gap, key, value, next),
        Entry::End => put_record(out, 1, 0, 0, 0, 0),
        Entry::Malformed { at } => put_record(out, 9, 0, 0, 0, at),
        Entry::Beyond => put_record(out, 2, 0, 0, 0, 0),
    }
}
