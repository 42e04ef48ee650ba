// Whether sprites have set bits at the same column: their wide rows are compared from the first column of the right one on.
ghost use Rattle.std.specs.Prelude.{◌≡◌, ◌&&◌, ◌+◌, ◌-◌, ltb};
ghost use Rattle.std.specs.List.{list_any};
ghost use Rattle.chip.specs.Bits.{bit};
ghost use Rattle.chip.specs.Ranges.{any_below};
ghost use Rattle.blit.specs.Wide.{columns_overlap, wides_meet, any_meet};

use crate::wide_sprite::WideSprite;

// Of two rows, the second of which begins d columns further right.
fn rows_meet(a: u32, b: u32, d: u16) -> bool
    ensures { result ≡ any_below 32 (λ k. (ltb (k + d) 32 && bit (31 - (k + d)) a) && bit (31 - k) b) }
{
    d < 32 && (a << d) & b != 0
}

fn two_meet(v: WideSprite, w: WideSprite) -> bool
    ensures { result ≡ wides_meet v w }
{
    let f = v.sprite.first;
    let g = w.sprite.first;
    if f <= g {
        rows_meet(v.row, w.row, g - f)
    } else {
        rows_meet(w.row, v.row, f - g)
    }
}

// Whether a row meets one of those before it.
fn meets_lower(lower: &[WideSprite], w: WideSprite) -> bool
    ensures { result ≡ list_any (λ v. wides_meet v w) lower.now }
{
    lower.iter().any(|v| two_meet(*v, w))
}

// Whether rows that begin at these columns have a column in common.
fn overlap(f: u16, g: u16) -> bool
    ensures { result ≡ columns_overlap f g }
{
    f.abs_diff(g) < 32
}

// Whether a row has a column in common with one of those before it.
fn overlaps_lower(lower: &[WideSprite], w: WideSprite) -> bool
    ensures { result ≡ list_any (λ v. columns_overlap v.sprite.first w.sprite.first) lower.now }
{
    lower
        .iter()
        .any(|v| overlap(v.sprite.first, w.sprite.first))
}

// Whether two rows meet. Bits are compared only where columns are in common, and until two rows meet.
pub fn any_meet(found: &[WideSprite]) -> bool
    ensures { result ≡ any_meet found.now }
{
    for (k, w) in found.iter().enumerate() {
        let lower = &found[..k];
        if overlaps_lower(lower, *w) && meets_lower(lower, *w) {
            return true;
        }
    }
    false
}
