// A file read from the disk, and one put in the place of another.
#![tactic(auto)]

ghost use Rattle.std.specs.Prelude.{◌≡◌, ◌+◌, ◌-◌, ◌<◌, ◌≤◌, ◌++◌, All, IfOk, length, take};
ghost use Rattle.std.specs.Io.{ReadsAtMost};
ghost use Rattle.base.specs.Text.{text};
ghost use Rattle.disk.specs.Names.{longest_path, IsLetterOrDigit, letters};

use arrayvec::ArrayVec;
use std::fs::{File, OpenFile};
use std::io::{ErrorKind, Write};
use std::random::RandomSource;
use std::rt::Files;
use std::{fs, io, str};

// The system opens no file whose path has more bytes.
pub const LONGEST_PATH: usize = 4095;

// What kept a file from being read.
#[derive(Clone, Copy)]
pub enum Failure {
    Open,
    Read,
}

// The first bytes of the file at the path, until the space is full or the file ends.
pub fn read(rt: &impl Files, path: &[u8], space: &mut [u8]) -> Result<usize, Failure>
    ensures { ReadsAtMost result space.new }
{
    let path = str::from_utf8(path).map_err(|_| Failure::Open)?;
    let mut file = File::open(rt, path).map_err(|_| Failure::Open)?;
    input::read_full(&mut file, space).map_err(|_| Failure::Read)
}

// ---- a new file in the place of another

// The name of the new file beside the path. What stands for the X's is found when the file is made.
#[tactic(auto, unfolding(base::specs::Text::text))]
fn new_name(path: &[u8]) -> ArrayVec<u8, LONGEST_NAME>
    requires { length path.now ≤ longest_path }
    ensures { result.items ≡ path.now ++ text ".XXXXXX" }
{
    let mut name = ArrayVec::new();
    name.try_extend_from_slice(path).unwrap();
    name.try_extend_from_slice(b".XXXXXX").unwrap();
    name
}

// How many letters or digits stand for the X's.
const LETTERS: usize = 6;

// A name has room in as many bytes: the path, a point and the letters.
const LONGEST_NAME: usize = LONGEST_PATH + 1 + LETTERS;

// As many names are tried as C's `mkstemp` tries.
const MOST_NAMES: usize = 62 * 62 * 62;

fn letter(byte: u8) -> u8
    ensures { IsLetterOrDigit result }
{
    let n = byte % 62;
    if n < 10 {
        b'0' + n
    } else if n < 36 {
        b'A' + (n - 10)
    } else {
        b'a' + (n - 36)
    }
}

fn random_letters(rt: &impl RandomSource) -> io::Result<[u8; LETTERS]>
    ensures { IfOk result (λ word. All IsLetterOrDigit word) }
{
    let mut bytes = [0u8; LETTERS];
    rt.fill_bytes(&mut bytes)?;
    Ok(bytes.map(letter))
}

// The letters go to the end of the name, where there is room for them.
fn put_letters(name: &mut [u8], word: [u8; LETTERS])
    ensures room { letters ≤ length name.old → name.new ≡ take (length name.old - letters) name.old ++ word }
    ensures short { length name.old < letters → name.new ≡ name.old }
{
    if let Some(at) = name.len().checked_sub(LETTERS) {
        name[at..].copy_from_slice(&word);
    }
}

fn text_of(name: &[u8]) -> io::Result<&str>
    ensures { IfOk result (λ text. text.now ≡ name.now) }
{
    str::from_utf8(name).map_err(|_| io::Error::from(ErrorKind::InvalidInput))
}

// A new file of this name; an error where one has it.
fn create<R: Files>(rt: &R, name: &[u8]) -> io::Result<R::File> {
    File::options()
        .write(true)
        .create_new(true)
        .open(rt, text_of(name)?)
}

// Makes a file under a name that no other file has, with other letters at the name's end. A loop: each try asks for new letters,
// which may fail, and the first that does not find its name taken is the answer.
fn make<R: Files + RandomSource>(rt: &R, name: &mut [u8]) -> io::Result<R::File> {
    for _ in 0..MOST_NAMES {
        put_letters(name, random_letters(rt)?);
        match create(rt, name) {
            Err(e) if e.kind() == ErrorKind::AlreadyExists => {}
            made => return made,
        }
    }
    Err(io::Error::from(ErrorKind::AlreadyExists))
}

// After an `Ok` the bytes are on the disk. The file is closed either way.
fn store<F: Write + OpenFile + Drop>(mut file: F, bytes: &[u8]) -> io::Result<()> {
    file.write_all(bytes)?;
    file.sync_all()
}

// Puts the bytes into the new file, and that in the place of the one at the path.
fn place<R: Files>(rt: &R, file: R::File, name: &str, path: &str, bytes: &[u8]) -> io::Result<()> {
    store(file, bytes)?;
    fs::rename(rt, name, path)
}

// Makes the new file and renames it over the path. Where anything fails, the new file goes and the old one stays.
fn replace<R: Files + RandomSource>(
    rt: &R,
    path: &[u8],
    name: &mut [u8],
    bytes: &[u8],
) -> io::Result<()> {
    let path = text_of(path)?;
    let file = make(rt, name)?;
    let name = text_of(name)?;
    let placed = place(rt, file, name, path, bytes);
    if placed.is_err() {
        let _ = fs::remove_file(rt, name);
    }
    placed
}

// Puts the bytes in the place of the file at the path. The old file stays as it was until all of the new one is on the
// disk, and for good where that fails.
pub fn save<R: Files + RandomSource>(rt: &R, path: &[u8], bytes: &[u8]) -> io::Result<()> {
    if LONGEST_PATH < path.len() {
        return Err(io::Error::from(ErrorKind::InvalidFilename));
    }
    let mut name = new_name(path);
    replace(rt, path, name.as_mut_slice(), bytes)
}
