// How often the instruction at each address ran.
ghost use Rattle.std.specs.Prelude.{◌<◌, IfSome};

use base_line::Line;
use std::io::Write;
use std::num::wrapping_add_u64;

const PLACES: usize = 65536;

// An address, one above what it is so that 0 is a free place, and its count.
#[derive(Clone, Copy)]
pub struct Count {
    pub key: u32,
    pub count: u64,
}

// A table of addresses and their counts. Where it is full, further addresses are left out.
#[derive(Drop)]
pub struct Counts {
    pub places: [Count; PLACES],
}

impl Counts {
    pub fn new() -> Self {
        Counts {
            places: [Count { key: 0, count: 0 }; PLACES],
        }
    }

    // The place of an address in the table, or a free one; a full table has none.
    fn place(&self, key: u32) -> Option<usize>
        ensures { IfSome result (λ i. i < 65536) }
    {
        for step in 0..PLACES {
            let i = (key as usize + step) % PLACES;
            let found = self.places[i].key;
            if found == key || found == 0 {
                return Some(i);
            }
        }
        None
    }

    // Counts a step at an address.
    pub fn count(&mut self, ps: u16, pc: u16) {
        let key = mach_memory::address(ps, pc) as u32 + 1;
        if let Some(i) = self.place(key) {
            let count = wrapping_add_u64(self.places[i].count, 1);
            self.places[i] = Count { key, count };
        }
    }

    // The line of an address, where its instruction ran.
    fn write_count(&self, out: &mut impl Write, a: u32) -> bool {
        match self.place(std::num::wrapping_add_u32(a, 1)) {
            Some(i) if self.places[i].count > 0 => write_line(out, a, self.places[i].count),
            _ => true,
        }
    }

    // A line for each address whose instruction ran, in their order.
    pub fn write(&self, out: &mut impl Write) -> bool {
        let mut ok = true;
        for a in 0..1048576 {
            ok &= self.write_count(out, a);
        }
        ok
    }
}

fn write_line(out: &mut impl Write, a: u32, n: u64) -> bool {
    let mut line = Line::new();
    line.push_hex(a as u64, 5);
    line.push(b' ');
    crate::push_decimal(&mut line, n);
    line.push(b'\n');
    crate::write_text(out, &line)
}
