// ADJ4A, ADJ4S, ADJBA, ADJBS, CVTBD, CVTDB, CVTBW, CVTWL on AL or AW and PSW. No public function has a precondition.
#![tactic(auto)]

ghost use Rattle.std.specs.Prelude.{◌≡◌, true, ◌+◌, ◌*◌, ◌/◌, ◌%◌, ◌≤◌};
ghost use Rattle.sheet.specs.Width.{extend, pick, sign_of};
ghost use Rattle.sheet.specs.Psw as sheet;
ghost use Rattle.sheet.specs.Psw.{flag_of};
ghost use Rattle.sheet.specs.Contract.{flagged};
ghost use Rattle.sheet.specs.Adjust.{digits_of, packed_result, unpacked, unpacked_result};
ghost use Rattle.sheet.specs.Convert.{converted};

use calc_flags::{AC, CY, Flags, V, flag};
use calc_psw::Outcome;
use sheet::{Flagged, Way};

// ADJ4A or ADJ4S of AL.
#[tactic(auto, unfolding(sheet::specs::Psw::settled, sheet::specs::Arithmetic::resulting, sheet::specs::Contract::flagged, sheet::specs::Adjust::packed_result))]
pub fn adj4(way: Way, al: u16, psw: u16) -> Flagged
    ensures { result ≡ flagged (packed_result way (digits_of al (flag_of psw sheet.AC) (flag_of psw sheet.CY))) psw }
{
    let d = calc_decimal::adjusted(way, al, flag::<AC>(psw), flag::<CY>(psw));
    let t = Outcome {
        value: d.value,
        ac: d.ac,
        cy: d.cy,
        v: flag::<V>(psw),
    };
    calc_psw::result(false, t, psw)
}

// AW once a digit is adjusted.
#[tactic(auto, unfolding(sheet::specs::Adjust::unpacked))]
fn unpacked(way: Way, low: bool, aw: u16) -> u16
    ensures { result ≡ unpacked way low aw }
{
    let high = calc_decimal::plain(way, aw / 256, calc_word::digit(low), false);
    let digits = calc_decimal::plain(way, aw % 256, calc_word::only(low, 6), false);
    high.value * 256 + digits.value % 16
}

// ADJBA or ADJBS of AW.
#[tactic(auto, unfolding(sheet::specs::Psw::settled, sheet::specs::Contract::flagged, sheet::specs::Adjust::unpacked_result))]
pub fn adjb(way: Way, aw: u16, psw: u16) -> Flagged
    ensures { result ≡ flagged (unpacked_result way aw (flag_of psw sheet.AC)) psw }
{
    let low = (9 < aw % 16) | flag::<AC>(psw);
    let f = Flags {
        ac: low,
        cy: low,
        ..Flags::from(psw)
    };
    Flagged {
        value: unpacked(way, low, aw),
        psw: calc_psw::affect(f, psw),
    }
}

// AH and AL, with P, S and Z by AL.
#[tactic(auto, unfolding(sheet::specs::Psw::settled, sheet::specs::Arithmetic::resulting, sheet::specs::Contract::flagged, sheet::specs::Convert::converted))]
fn converted(ah: u16, al: u16, psw: u16) -> Flagged
    requires { (ah ≤ 255) × (al ≤ 255) }
    ensures { result ≡ flagged (converted ah al) psw }
{
    let t = Outcome {
        value: al,
        ac: flag::<AC>(psw),
        cy: flag::<CY>(psw),
        v: flag::<V>(psw),
    };
    Flagged {
        value: ah * 256 + al,
        ..calc_psw::result(false, t, psw)
    }
}

// CVTBD of AL.
pub fn cvtbd(aw: u16, psw: u16) -> Flagged
    ensures { result ≡ flagged (converted (aw % 256 / 10) (aw % 256 % 10)) psw }
{
    converted(aw % 256 / 10, aw % 256 % 10, psw)
}

// CVTDB of AH and AL.
pub fn cvtdb(aw: u16, psw: u16) -> Flagged
    ensures { result ≡ flagged (converted 0 ((aw / 256 * 10 + aw % 256) % 256)) psw }
{
    converted(0, (aw / 256 * 10 + aw % 256) % 256, psw)
}

// AW after CVTBW.
pub fn cvtbw(aw: u16) -> u16
    ensures { result ≡ extend (aw % 256) }
{
    calc_word::sign_extend((aw % 256) as u8)
}

// DW after CVTWL.
#[tactic(auto, unfolding(sheet::specs::Width::sign_of))]
pub fn cvtwl(aw: u16) -> u16
    ensures { result ≡ pick (sign_of true aw) 65535 0 }
{
    if aw < 32768 { 0 } else { 65535 }
}
