// How numbers are written in a field (rules/specs/Deck.antt).
ghost use Rattle.std.specs.Prelude.{◌≡◌, drop};
ghost use Rattle.base.specs.Text.{held};
ghost use Rattle.rules.specs.Deck.{nothing_but, whole_in, before_point, from_point, after_point, after_digits, has_decimal_form, hundredths_in, units_in, written};

use rules::Notation;

const BLANK: u8 = b' ';

const POINT: u8 = b'.';

// Whether there is no byte but this.
#[tactic(auto, using(std::proofs::lemmas::Bool::Decides::nat_tests), unfolding(rules::specs::Deck::nothing_but))]
fn is_nothing_but(byte: u8, bytes: &[u8]) -> bool
    ensures { result ≡ nothing_but byte bytes.now }
{
    text::skip(bytes, byte).is_empty()
}

#[tactic(auto, unfolding(rules::specs::Deck::whole_in, base::specs::Text::held))]
fn whole(field: &[u8]) -> Option<usize>
    ensures { result ≡ held (whole_in field.now) }
{
    if is_nothing_but(BLANK, field) {
        return None;
    }
    text::digits_after(0, text::skip(field, BLANK))
}

// ---- the parts of a decimal field

#[tactic(auto, unfolding(rules::specs::Deck::before_point))]
fn before_point(field: &[u8]) -> &[u8]
    ensures { result.now ≡ before_point field.now }
{
    text::up_to(text::skip(field, BLANK), POINT)
}

#[tactic(auto, unfolding(rules::specs::Deck::from_point))]
fn from_point(field: &[u8]) -> &[u8]
    ensures { result.now ≡ from_point field.now }
{
    text::on_from(text::skip(field, BLANK), POINT)
}

// What follows the point.
fn behind_point(field: &[u8]) -> &[u8]
    ensures { result.now ≡ drop 1 (from_point field.now) }
{
    text::drop(from_point(field), 1)
}

#[tactic(auto, unfolding(rules::specs::Deck::after_point))]
fn after_point(field: &[u8]) -> &[u8]
    ensures { result.now ≡ after_point field.now }
{
    text::up_to(behind_point(field), BLANK)
}

#[tactic(auto, unfolding(rules::specs::Deck::after_digits))]
fn after_digits(field: &[u8]) -> &[u8]
    ensures { result.now ≡ after_digits field.now }
{
    text::on_from(behind_point(field), BLANK)
}

#[tactic(auto, using(std::proofs::lemmas::Bool::Decides::nat_tests), unfolding(rules::specs::Deck::has_decimal_form))]
fn has_decimal_form(field: &[u8]) -> bool
    ensures { result ≡ has_decimal_form field.now }
{
    !before_point(field).is_empty()
        && !from_point(field).is_empty()
        && after_point(field).len() <= 2
        && is_nothing_but(BLANK, after_digits(field))
}

// ---- what it stands for

fn hundredths(field: &[u8]) -> Option<usize>
    ensures { result ≡ held (hundredths_in field.now) }
{
    if !has_decimal_form(field) {
        return None;
    }
    let part = after_point(field);
    let units = text::digits_after(0, before_point(field))?;
    let digits = text::digits_after(units, part)?;
    text::digits_after(digits, text::drop(b"00", part.len()))
}

#[tactic(auto, unfolding(rules::specs::Deck::units_in, base::specs::Text::held))]
fn units(field: &[u8]) -> Option<usize>
    ensures { result ≡ held (units_in field.now) }
{
    if has_decimal_form(field) && is_nothing_but(b'0', after_point(field)) {
        text::digits_after(0, before_point(field))
    } else {
        None
    }
}

#[tactic(auto, unfolding(rules::specs::Deck::written))]
pub fn read(notation: Notation, field: &[u8]) -> Option<usize>
    ensures { result ≡ held (written notation field.now) }
{
    match notation {
        Notation::Whole => whole(field),
        Notation::Hundredths => hundredths(field),
        Notation::Units => units(field),
    }
}
