// The records of a file: the two forms that a file may have, the kinds of records, and one record.
ghost use Rattle.std.specs.Prelude.{◌≡◌};
ghost use Rattle.grammar.specs.Slots.{slot_in};

// The form of a file, numbered as the kind of its first record: without leaders, or with them. There is no third: a file whose
// first kind is another one is read as one without (`file::forms::form_in`). So what is asked of a record takes one of these.
#[derive(Clone, Copy, PartialEq, Eq)]
pub enum Form {
    Plain = 1,
    Leaders = 8,
}

// The kind of a record.
#[derive(Clone, Copy)]
pub enum Kind {
    Counts = 1,
    Limits = 2,
    Greatest = 3,
    Strategy = 4,
    Pavement = 5,
    Segment = 6,
    End = 7,
}

// A record of a file: the file's form, its kind, how many numbers it may have, and which of its kind it is, from 0. Places and nth
// stand beside the kind, as in the rules' `Slot`: a kind with its nth inside would have no number by a cast, and places as a
// method would be one more match of the seven.
#[derive(Clone, Copy)]
pub struct Slot {
    pub form: Form,
    pub kind: Kind,
    pub places: usize,
    pub nth: usize,
}

impl Slot {
    // The number of its kind in a file: the counts have the form's.
    pub fn kind_number(self) -> usize
        ensures { result ≡ (slot_in self).kind }
    {
        match self.kind {
            Kind::Counts => self.form as usize,
            kind => kind as usize,
        }
    }
}
