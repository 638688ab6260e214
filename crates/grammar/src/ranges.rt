// Whether a district is one that a file may hold.
ghost use Rattle.std.specs.Prelude.{◌≡◌, ◌<◌, drop};
ghost use Rattle.rules.specs.File.{numbers_in_range, in_range};
ghost use Rattle.rules.specs.Format.{leader_form, slot_of, file_records};
ghost use Rattle.grammar.specs.Places.{start_of};

use crate::Form;
use rules::District;
use rules::records::RECORDS;

// Whether each number of the `n`-th record, from 0, is in its range. The form with leaders has every number that a district has.
fn record_in_range(d: &District, n: usize) -> bool
    requires { n < file_records }
    ensures { let s = slot_of leader_form n in result ≡ numbers_in_range s.places d.now s 0 (drop (start_of n) d.now) }
{
    let s = crate::slot_at(Form::Leaders, n);
    let place = crate::start_of(n);
    d[place..place + s.places].iter().enumerate().all(|(i, number)| crate::is_inside(
        crate::field_at(d, s, i),
        *number,
    ))
}

// Whether each number of the district is one that the file may hold.
pub fn in_range(d: &District) -> bool
    ensures { result ≡ in_range d.now }
{
    (0..RECORDS).all(|n| record_in_range(d, n))
}
