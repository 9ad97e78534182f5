// A pattern, read where its bytes stand: the cells that it asks, whether a matrix fits it, and what is turned away.
#![tactic(auto)]

ghost use Rattle.std.specs.Prelude.{◌≡◌, ◌+◌, ◌<◌, ◌&&◌, [], Ok, Err, false, eqb, get_or, length};
ghost use Rattle.plane_dimensions.specs.declared.Dimension.TheVariants.{Empty, Area};
ghost use Rattle.check_verdict.specs.Refusals.{settle};
ghost use Rattle.cells_pattern.specs.Pattern.{fits, fits_row, fits_all, is_character};
ghost use Rattle.cells_pattern.specs.Asked.{may_hold, asked_cells, pattern_verdict};

use plane_dimensions::Dimension;
use plane_dimensions::Dimension::{Area, Empty, Length, Points};
use scene::{Reason, Refusal};

// Does a cell fit a character? T takes any value but F, a sign its own and * every one; what is none of the six takes none.
// Kept with `&` and `|`, which do not branch: so the positions of a pattern are compared side by side, and not one after the other.
fn fits(character: u8, cell: Dimension) -> bool
    ensures { result ≡ fits character cell }
{
    (character == b'*')
        | (character == b'T') & (cell != Empty)
        | (character == b'F') & (cell == Empty)
        | (character == b'0') & (cell == Points)
        | (character == b'1') & (cell == Length)
        | (character == b'2') & (cell == Area)
}

fn fits_row(p: &[u8], at: usize, row: [Dimension; 3]) -> bool
    requires { at + 2 < length p.now }
    ensures { result ≡ fits_row p.now at row }
{
    fits(p[at], row[0]) & fits(p[at + 1], row[1]) & fits(p[at + 2], row[2])
}

// May a matrix fit? The characters are nine, and the last of them takes an area, which EE has.
fn may_hold(p: &[u8]) -> bool
    ensures { result ≡ may_hold p.now }
{
    p.len() == 9 && fits(p[8], Area)
}

// A bit for each cell that is asked, none where no matrix fits.
#[tactic(auto, unfolding(crate::specs::Asked::asked_cells))]
pub fn asked_cells(p: &[u8]) -> u16
    ensures { result ≡ asked_cells p.now }
{
    if !may_hold(p) {
        return 0;
    }
    let mut cells: u16 = 0;
    for at in 0..9 {
        if p[at] != b'*' {
            cells |= 1 << at;
        }
    }
    cells
}

// Are there nine characters, and do all nine cells fit, row by row? EE has an area.
// Kept out of its caller, where the cells would be gathered byte by byte.
#[inline(never)]
#[tactic(auto, unfolding(crate::specs::Pattern::fits_all))]
pub fn fits_all(p: &[u8], m: [[Dimension; 3]; 3]) -> bool
    requires { get_or (get_or m 2 []) 2 Empty ≡ Area }
    ensures { result ≡ (eqb (length p.now) 9 && fits_all p.now m) }
{
    may_hold(p)
        && fits_row(p, 0, m[0]) & fits_row(p, 3, m[1]) & fits(p[6], m[2][0]) & fits(p[7], m[2][1])
}

// One of the six?
fn is_character(byte: u8) -> bool
    ensures { result ≡ is_character byte }
{
    (byte == b'T')
        | (byte == b'F')
        | (byte == b'0')
        | (byte == b'1')
        | (byte == b'2')
        | (byte == b'*')
}

fn is_row(p: &[u8], at: usize) -> bool
    requires { at + 2 < length p.now }
    ensures { result ≡ (is_character (get_or p.now at 0) && is_character (get_or p.now (at + 1) 0) && is_character (get_or p.now (at + 2) 0)) }
{
    is_character(p[at]) & is_character(p[at + 1]) & is_character(p[at + 2])
}

// The answer where no matrix fits: 22, then 23 at the first character outside the six, and no. It is looked for only where there is one.
#[tactic(auto, unfolding(crate::specs::Asked::pattern_verdict))]
pub fn misfit(p: &[u8]) -> Result<bool, Refusal>
    ensures { result ≡ settle Err (pattern_verdict p.now) (Ok false) }
{
    if p.len() != 9 {
        return Reason::NotNine.at(0);
    }
    if is_row(p, 0) & is_row(p, 3) & is_row(p, 6) {
        return Ok(false);
    }
    for (place, byte) in p.iter().enumerate() {
        if !is_character(*byte) {
            return Reason::NoCharacter.at(place);
        }
    }
    Ok(false)
}
