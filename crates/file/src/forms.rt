// Which form a file has, and which form the file of a district gets.
ghost use Rattle.std.specs.Prelude.{◌≡◌, ltb, length};
ghost use Rattle.base.specs.Choice.{pick};
ghost use Rattle.grammar.specs.Slots.{form_number};
ghost use Rattle.rules.specs.File.{form_in, leaderless, form_of};
ghost use Rattle.rules.specs.Format.{plain_form};

use crate::bytes;
use grammar::Form;
use rules::District;
use rules::places::*;

// The form in which a file is read. One that ends before its first kind does is refused in both (proofs/TwoForms.antt).
#[tactic(auto, using(base::proofs::Choice::picks))]
pub fn form_in(file: &[u8]) -> Form
    ensures { form_number result ≡ pick (ltb (length file.now) 4) plain_form (form_in file.now) }
{
    if file.len() < 4 {
        return Form::Plain;
    }
    if bytes::number(&file[2..4]) == Form::Leaders as usize {
        Form::Leaders
    } else {
        Form::Plain
    }
}

// Whether no segment has a leader. Past the last place there is none. By the segments' numbers, as the definition goes: of
// `chunks` it would have to be shown which place of the district each one's leader is.
pub fn is_leaderless(d: &District) -> bool
    ensures { result ≡ leaderless d.now }
{
    let segments = d[SEGMENT_COUNT].min(MOST_SEGMENTS);
    (0..segments).all(|i| d[SEGMENTS + PER_SEGMENT * i + LEADER] == 0)
}

#[tactic(auto, using(base::proofs::Choice::picks), unfolding(rules::specs::File::form_of))]
pub fn form_of(d: &District) -> Form
    ensures { form_number result ≡ form_of d.now }
{
    if is_leaderless(d) {
        Form::Plain
    } else {
        Form::Leaders
    }
}
