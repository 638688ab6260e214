// What refuses a call, in the documents' order. Each refusal has the number that the documents give it
// (specs/Answers.antt).
ghost use Rattle.std.specs.Prelude.{◌≡◌};
ghost use Rattle.rules.specs.Answers.{refusal_number};

#[derive(Clone, Copy, Debug)]
pub enum Refusal {
    // A file ends within a record.
    CutShort = 1,
    OtherKind = 2,
    OtherLength = 3,
    OutOfRange = 4,
    BytesFollow = 5,
    NoSuchSegment = 6,
    // No such strategy, resource or distress.
    NoSuchNumber = 7,
    // A new limit or rating.
    NewOutOfRange = 8,
    BufferTooShort = 9,
    NoSuchPoints = 10,
    NoRoomForPage = 11,
    // A value that is no reading, and points where there is no reading.
    NoReading = 12,
    WindowEmpty = 13,
    LeaderNotBelow = 14,
    // A leader is set in a file that is to have none.
    LeaderSet = 15,
    // A number that is no office's; a load that would bring other tables to an office with segments.
    NoSuchOffice = 16,
    TablesInUse = 17,
    // A field that breaks its rule or its range, and a line of another length or a deck that ends before it.
    WrongField = 18,
    WrongLine = 19,
    // A number that is no console's, and a queue without a free place.
    NoSuchConsole = 20,
    QueueFull = 21,
}

impl From<Refusal> for usize {
    ghost from_gives = { λ refusal n. n ≡ refusal_number refusal };

    fn from(refusal: Refusal) -> usize {
        refusal as usize
    }
}
