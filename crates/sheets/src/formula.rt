//! Formulas as text, in prefix form.

ghost use Rattle.std.specs.Prelude.{◌≡◌, ◌≤◌};
ghost use Rattle.sheets.specs.Checks.{Accepts, ToldFirst, checked};
ghost use Rattle.sheets.specs.Signs.{arity as arity_of, arity_over};

use crate::fault::FormulaFault;

/// How many formulas a sign stands before; nothing if it is no sign.
pub fn arity(sign: char) -> Option<u8>
    ensures { result ≡ arity_of sign }
{
    match sign {
        'T' | 'a'..='z' => Some(0),
        '!' | 'K' | 'M' => Some(1),
        '&' | '|' => Some(2),
        _ => None,
    }
}

// The same over so many letters: a letter past them is no sign.
fn arity_over(letters: u8, sign: char) -> Option<u8>
    ensures { result ≡ arity_over letters sign }
{
    match sign {
        'a'..='z' if u32::from(sign) >= u32::from(b'a') + u32::from(letters) => None,
        _ => arity(sign),
    }
}

/// Whether the text is one whole formula over so many letters, of 1 to 200 bytes. Refused with the first fault: what is
/// before its place begins some formula, and no formula goes on with the byte there. This is of the grammar of up to 26
/// letters; letters past `z` are no signs.
pub fn check_formula(text: &[u8], letters: u8) -> Result<(), FormulaFault>
    ensures answer { result ≡ checked letters text.now }
    ensures grammar { letters ≤ 26 → Accepts letters text.now result }
    ensures place { letters ≤ 26 → ToldFirst letters text.now result }
{
    // A match with a guard, since a size that fits a byte may be too long all the same.
    let size = match u8::try_from(text.len()) {
        Ok(size) if size <= 200 => size,
        _ => return Err(FormulaFault::TooLong),
    };
    let mut owed: u8 = 1;
    // By `zip`, since a fault tells its place as a byte.
    for (place, sign) in (0..size).zip(text) {
        if owed == 0 {
            return Err(FormulaFault::Spare(place));
        }
        let own = arity_over(letters, char::from(*sign)).ok_or(FormulaFault::Wrong(place))?;
        owed = owed - 1 + own;
    }
    if owed > 0 {
        return Err(FormulaFault::Unfinished(size));
    }
    Ok(())
}
